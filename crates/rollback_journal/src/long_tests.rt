ghost use Rattle.std.specs.Prelude.{◌≤◌, None, length};

use crate::header::MAGIC;
use crate::{Header, Heat, RecoverFault, header_bytes, hot, recover};
use alter_disk::{Disk, Failed, OpenFault, Which};
use std::test::Fail;

const HEADER: Header = Header {
    count: 2,
    nonce: 0,
    size: 3,
    sector: 512,
    page: 512,
};

/// The greatest length of a journal that is played.
const LIMIT: u64 = 1 << 30;

/// A disk whose journal has this length and of which nothing is held: it gives a header at its start and the magic
/// wherever else it is read.
#[derive(Drop)]
struct LongDisk {
    len: u64,
    was_called: bool,
}

impl Disk for LongDisk {
    ghost label = { λ _. None };

    ghost called = { λ d. d.was_called };

    ghost opened = { λ d. d.was_called };

    ghost files = { λ _. None };

    ghost may_leave = { λ _ _. ⊥ };

    ghost moment = { λ _. 0 };

    ghost left_since = { λ _ _ _. ⊥ };

    ghost read_faults = { λ _. 0 };

    ghost write_faults = { λ _. 0 };

    ghost counts_now = { λ _ _ _ _ left. left };

    ghost only_now = { λ _ _ left. left };

    ghost tells = { λ _ _ left. absurd left };

    fn open(&mut self, _: &str) -> Result<(), OpenFault> {
        self.was_called = true;
        Ok(())
    }

    fn len(&mut self, _: Which) -> Result<u64, Failed> {
        Ok(self.len)
    }

    fn read(&mut self, _: Which, at: u64, buf: &mut [u8]) -> Result<usize, Failed> {
        if at == 0 {
            Ok(copy(&header_bytes(&HEADER, true), buf))
        } else {
            Ok(copy(&MAGIC, buf))
        }
    }

    fn write(&mut self, _: Which, _: u64, _: &[u8]) -> Result<(), Failed> {
        Ok(())
    }

    fn cut(&mut self, _: Which, _: u64) -> Result<(), Failed> {
        Ok(())
    }

    fn sync(&mut self, _: Which) -> Result<(), Failed> {
        Ok(())
    }
}

/// Copies as many bytes as there is room for.
fn copy(bytes: &[u8], buf: &mut [u8]) -> usize
    ensures { result ≤ length buf.old }
{
    let count = bytes.len().min(buf.len());
    buf[..count].copy_from_slice(&bytes[..count]);
    count
}

#[test]
fn a_journal_past_the_limit_names_no_super_journal(rt: HostRuntime) -> Result<(), Fail> {
    let mut disk = LongDisk {
        len: LIMIT,
        was_called: true,
    };
    assert_eq!(rt; hot(&mut disk)?, Heat::Super);
    disk.len = LIMIT + 1;
    assert_eq!(rt; hot(&mut disk)?, Heat::Hot(HEADER));
    let answer = recover(rt.alloc(), &mut disk);
    assert!(rt; matches!(answer, Err(RecoverFault::TooLarge)));
    Ok(())
}
