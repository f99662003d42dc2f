ghost use Rattle.std.specs.Prelude.{◌≡◌, length, min, take};

/// Copies the front of some bytes, at most `most` of them, and answers how many were copied.
pub fn copy_front(from: &[u8], most: usize, into: &mut [u8]) -> usize
    ensures count { result ≡ min most (min (length into.old) (length from.now)) }
    ensures copied { take result into.new ≡ take result from.now }
{
    let count = most.min(into.len().min(from.len()));
    into[..count].copy_from_slice(&from[..count]);
    count
}
