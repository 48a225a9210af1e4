//! Bytes moved into a buffer.
ghost use Rattle.std.specs.Prelude.{◌≡◌, ◌++◌, length, min, take, drop};

/// Copies into the front of `buf` what it has room for, and answers how many bytes that were.
pub(crate) fn copy_front(bytes: &[u8], buf: &mut [u8]) -> usize
    ensures count { result ≡ min (length buf.old) (length bytes.now) }
    ensures buffer { buf.new ≡ take (length buf.old) bytes.now ++ drop result buf.old }
{
    let count = buf.len().min(bytes.len());
    buf[..count].copy_from_slice(&bytes[..count]);
    count
}
