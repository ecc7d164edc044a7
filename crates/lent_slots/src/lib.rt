// The lent slots, four at a time and all at once. These are for the crates above only: each has a requires that its caller must meet.
#![tactic(auto)]

ghost use Rattle.std.specs.Prelude.{◌≡◌, map, ◌+◌, ◌≤◌, length};
ghost use Rattle.slots.specs.Blocks.{block_at, set_block};
ghost use Rattle.slots.specs.declared.Slot.{Slot};

use slots::Slot;
use std::array;

// The four lent slots from a position on.
pub fn block_at(slots: &[Slot], at: usize) -> [Slot; 4]
    requires { at + 4 ≤ length slots.now }
    ensures { result ≡ block_at slots.now at }
{
    array::from_fn(|i| slots[at + i])
}

// The ID in each of the lent slots.
pub fn ids(slots: &[Slot; 32]) -> [u32; 32]
    ensures { result ≡ map (λ (x : Slot). x.id) slots.now }
{
    // Stays: slots.map(|x| x.id) copies all slots first, and array::from_fn leaves its equation with `map` open.
    let mut ids = [0; 32];
    for p in 0..slots.len() {
        ids[p] = slots[p].id;
    }
    ids
}

// Four slots into the lent ones, from a position on.
#[tactic(auto, using(slots::proofs::Blocks::copied_block))]
pub fn put_block(slots: &mut [Slot], at: usize, b: [Slot; 4])
    requires { at + 4 ≤ length slots.old }
    ensures { slots.new ≡ set_block slots.old at b }
{
    slots[at..at + 4].copy_from_slice(&b);
}
