// One copy that both sources in memory make.
ghost use Rattle.std.specs.Prelude.{◌≡◌, length, take, min};

// Copies as many bytes as there are and as fit, and at most `most`.
pub fn copy_front(from: &[u8], most: usize, out: &mut [u8]) -> usize
    ensures count { result ≡ min most (min (length from.now) (length out.old)) }
    ensures copied { take result out.new ≡ take result from.now }
{
    let count = most.min(from.len().min(out.len()));
    out[..count].copy_from_slice(&from[..count]);
    count
}
