// Pieces of bytes: one that is copied, and one that shows the end.
ghost use Rattle.std.specs.Prelude.{◌≡◌, ◌≤◌, ◌<◌, ◌↔◌, IsTrue, length, take, drop, min};

/// Copies as many bytes as both have, and at most `most`, to the front of `buf`, and says how many.
pub fn copy_front(from: &[u8], buf: &mut [u8], most: usize) -> usize
    ensures count { result ≡ min most (min (length from.now) (length buf.old)) }
    ensures copied { take result buf.new ≡ take result from.now }
    ensures behind { drop result buf.new ≡ drop result buf.old }
{
    let count = most.min(from.len().min(buf.len()));
    buf[..count].copy_from_slice(&from[..count]);
    count
}

/// Whether so many bytes, read into this buffer, show the end of an input.
pub fn shows_end(count: usize, buf: &[u8]) -> bool
    ensures { IsTrue result ↔ ((count ≡ 0) × (0 < length buf.now)) }
{
    count == 0 && !buf.is_empty()
}
