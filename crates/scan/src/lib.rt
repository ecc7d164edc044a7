// One pass over the pending frames for all that a call asks of them: whether state and slots are valid, and which frame is first. Here
// are its steps, for the crates above: lent_scan goes over the lent slots by them. What is required the callers must meet.
#![tactic(auto)]

ghost use Rattle.std.specs.Prelude.{◌≡◌, ◌&&◌, leb, ◌+◌, ◌≤◌, ◌<◌, Option};
ghost use Rattle.bus_state.specs.Memory.{slot_count, slots_per_node};
ghost use Rattle.scan.specs.Winner.{Small};
ghost use Rattle.scan.specs.declared.Winner.{Winner};
ghost use Rattle.scan.specs.Scan.{key_of, winner_block, step_of, run_key, begun, entry_key, frame_count, attached_count, first_key};

use bus_state::{NodeState, State};
use slots::Slot;

// The first of the frames seen so far: what it is compared by, its node, and its position among that node's pending frames.
#[derive(Clone, Copy)]
pub struct Winner {
    pub rank: u32,
    pub owner: usize,
    pub position: usize,
}

// The pass along a node's frames: the key so far, and the round at which the last frame was accepted.
#[derive(Clone, Copy)]
pub struct Run {
    pub key: u64,
    pub low: u32,
}

// The key of a state that is not valid. That of a frame is its rank * 32 + its slot + 1, so that the lowest key is the winner's.
// Stays: one number, and no Option, as `scanned` and the theorem scanned_is have it: 0 wins every minimum.
pub const INVALID: u64 = 0;

const NO_FRAME: u64 = 137438953473;

const SLOT_COUNT: u64 = bus_state::SLOT_COUNT as u64;

const SLOTS_PER_NODE: u64 = bus_state::SLOTS_PER_NODE as u64;

// Of a state: how many nodes are attached, and the key to begin with.

fn count_is_legal(count: u32) -> bool
    ensures { result ≡ (leb 2 count && leb count 8) }
{
    (2 <= count) & (count <= bus_state::MAX_NODES)
}

pub fn attached(s: State) -> usize
    ensures { (result ≡ attached_count s) × (result ≤ 8) }
{
    if count_is_legal(s.count) {
        return s.count as usize;
    }
    0
}

pub fn first_key(s: State) -> u64
    ensures { result ≡ first_key s }
{
    if count_is_legal(s.count) {
        return NO_FRAME;
    }
    INVALID
}

// Of an entry: the key with it, and how many frames to go along.

pub fn entry_key(d: NodeState, key: u64) -> u64
    ensures { result ≡ entry_key d key }
{
    if bus_state::entry_is_valid(d) {
        return key;
    }
    INVALID
}

#[tactic(auto, using(bus_state::proofs::Tests::few))]
pub fn frame_count(d: NodeState) -> usize
    ensures { (result ≡ frame_count d) × (result ≤ slots_per_node) }
{
    if bus_state::entry_is_valid(d) {
        return d.pending as usize;
    }
    0
}

impl Run {
    // Before a node's first frame.
    pub fn begin(key: u64) -> Run
        ensures { result ≡ begun key }
    {
        Run { key, low: 0 }
    }

    // One more slot, p of node j.
    #[tactic(auto, unfolding(crate::specs::Scan::step_of))]
    pub fn step(self, x: Slot, j: usize, p: usize) -> Run
        requires { (j < 8) × (p < slot_count) }
        ensures { result ≡ step_of self x j p }
    {
        let low = x.accepted;
        if !bus_state::slot_follows(x, j as u8, self.low) {
            return Run { key: INVALID, low };
        }
        let frame = x.id as u64 * SLOT_COUNT + p as u64 + 1;
        let key = frame.min(self.key);
        Run { key, low }
    }

    // Behind the last frame. Along a node's frames the rounds do not fall, so that none was accepted after now if the last was not.
    pub fn end(self, now: u32) -> u64
        ensures { result ≡ run_key self now }
    {
        if now < self.low {
            return INVALID;
        }
        self.key
    }
}

// The winner by the key of a valid state.
// Stays: it asks for the key of a valid state, which `From` can not.
#[tactic(auto, using(crate::proofs::Keys::no_frame_lem))]
pub fn winner_of(key: u64) -> Option<Winner>
    requires { 1 ≤ key }
    ensures { (w : Option Winner) → Small w → key_of w ≡ key → result ≡ w }
{
    if NO_FRAME <= key {
        return None;
    }
    let place = (key - 1) % SLOT_COUNT;
    let rank = (key - 1) / SLOT_COUNT;
    Some(Winner {
        rank: rank as u32,
        owner: (place / SLOTS_PER_NODE) as usize,
        position: (place % SLOTS_PER_NODE) as usize,
    })
}

// The first slot of the winner's node; 0 where there is no winner.
// Stays: a number in each case, as the definition has it (winner_block): four slots are read in each.
#[tactic(auto, unfolding(crate::specs::Scan::winner_block), using(crate::proofs::Keys::some_key))]
pub fn winner_block(key: u64) -> usize
    ensures { (result ≡ winner_block key) × (result + slots_per_node ≤ slot_count) }
{
    if (key == INVALID) | (NO_FRAME <= key) {
        return 0;
    }
    let place = (key - 1) % SLOT_COUNT;
    bus_state::SLOTS_PER_NODE * (place / SLOTS_PER_NODE) as usize
}
