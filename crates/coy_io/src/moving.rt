//! Bytes that move from one place in memory to another.
ghost use Rattle.std.specs.Prelude.{◌≡◌, length, take};
ghost use Rattle.coy_io.specs.Memory.{count_of};

/// Copies the front of `rest` to the front of `buf`, at most `limit` bytes of it.
pub(crate) fn move_front(rest: &[u8], limit: usize, buf: &mut [u8]) -> usize
    ensures count { result ≡ count_of (length buf.old) limit rest.now }
    ensures moved { take result buf.new ≡ take result rest.now }
{
    let count = buf.len().min(limit).min(rest.len());
    buf[..count].copy_from_slice(&rest[..count]);
    count
}
