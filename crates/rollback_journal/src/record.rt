//! The records of a journal.
ghost use Rattle.std.specs.Prelude.{◌≡◌, ◌≤◌, ◌+◌, length};
ghost use Rattle.rollback_journal.specs.Records.{record_len, page_in, records_in, verdict_of};

use crate::header::Header;
use crate::sum::checksum;
use alter_bytes::u32_at;

/// What playback does with a record.
#[derive(Clone, Copy, Debug, PartialEq, Eq)]
pub(crate) enum Verdict {
    /// It ends before it.
    End,
    /// It goes on behind it.
    Skip,
    /// It plays it into the page of this number.
    Take(u32),
}

/// The bytes of a record: a page's number, the page and its checksum.
pub(crate) fn record_len(h: &Header) -> usize
    ensures { result ≡ record_len h.now }
{
    h.page as usize + 8
}

/// How many records a header's count stands for in a journal of this length.
pub(crate) fn records_in(len: u64, count: u32) -> u64
    ensures { result ≡ records_in len count }
{
    if count == u32::MAX { len } else { count as u64 }
}

/// The page in the bytes of a record.
pub(crate) fn page_in<'a>(h: &Header, bytes: &'a [u8]) -> &'a [u8]
    requires { record_len h.now ≤ length bytes.now }
    ensures { result.now ≡ page_in h.now bytes.now }
{
    &bytes[4..4 + h.page as usize]
}

/// What playback does with the record of these bytes.
#[tactic(auto, unfolding(crate::specs::Records::verdict_of))]
pub(crate) fn judge(h: &Header, nonce: u32, bytes: &[u8]) -> Verdict
    ensures { result ≡ verdict_of h.now nonce bytes.now }
{
    if bytes.len() < record_len(h) {
        return Verdict::End;
    }
    let number = u32_at(bytes, 0);
    if number == 0 {
        Verdict::End
    } else if h.size < number {
        Verdict::Skip
    } else if checksum(nonce, page_in(h, bytes)) == u32_at(bytes, h.page as usize + 4) {
        Verdict::Take(number)
    } else {
        Verdict::End
    }
}
