// Bytes laid over a buffer from a position on. These are for the crates above only: each has a requires that its caller must meet.
#![tactic(auto)]

ghost use Rattle.std.specs.Prelude.{◌≡◌, ◌+◌, ◌≤◌, length};
ghost use Rattle.operation.specs.Number.{little_endian};
ghost use Rattle.buffers.specs.Parts.{part, over};

// Lays bytes over a buffer from a position on.
#[tactic(auto, unfolding(crate::specs::Parts::over))]
pub fn put(buffer: &mut [u8], at: usize, bytes: &[u8])
    requires { at + length bytes.now ≤ length buffer.old }
    ensures { buffer.new ≡ over buffer.old at bytes.now }
{
    buffer[at..at + bytes.len()].copy_from_slice(bytes);
}

// Lays the lowest N bytes of a number in the same way, the least significant first.
#[tactic(auto, using(crate::proofs::Numbers::lowest_bytes))]
pub fn put_number<const N: usize>(buffer: &mut [u8], at: usize, x: u32)
    requires size { N ≤ 4 }
    requires in_bounds { at + N ≤ length buffer.old }
    ensures { buffer.new ≡ over buffer.old at (little_endian N x) }
{
    put(buffer, at, &x.to_le_bytes()[..N]);
}

// Lays a part of a buffer over its bytes from a position on, also where the two overlap.
#[tactic(auto, unfolding(crate::specs::Parts::part, crate::specs::Parts::over))]
pub fn shift(buffer: &mut [u8], at: usize, from: usize, n: usize)
    requires { (at + n ≤ length buffer.old) × (from + n ≤ length buffer.old) }
    ensures { buffer.new ≡ over buffer.old at (part from n buffer.old) }
{
    if at + n <= from {
        // The compiler sees that the two do not overlap, and makes one move of it.
        let (before, rest) = buffer.split_at_mut(from);
        before[at..at + n].copy_from_slice(&rest[..n]);
        return;
    }
    buffer.copy_within(from..from + n, at);
}
