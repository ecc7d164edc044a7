// The state of the bus, which goes in and comes back by value, beside the lent memory: slots, payload bytes, queue bytes.
#![tactic(auto)]

ghost use Rattle.std.specs.Prelude.{◌≡◌, ◌<◌, set};
ghost use Rattle.bus_state.specs.Memory.{node_state, is_off};
ghost use Rattle.bus_state.specs.Entries.{with_entry, entry_status, entry_behaviour, entry_rates, entry_fill, entry_pending};
ghost use Rattle.bus_state.specs.Valid.{non_zero, valid_entry};
ghost use Rattle.bus_state.specs.Follows.{slot_follows};

use operation::NodeStatus;
use slots::Slot;

// What is held of one node besides its frames and its queue's bytes: its pending frames are slots 4j to 4j + pending - 1 of node j,
// oldest first, and its queue the first fill bytes from 4,096 j on.
// Stays: numbers, with any value in them, and no invariant, since C hands the state over (kf_submit).
#[repr(C)]
#[derive(Clone, Copy)]
pub struct NodeState {
    pub rates: [u32; 3],
    pub fill: u16,
    pub status: u8,
    pub behaviour: u8,
    pub pending: u8,
}

#[repr(C)]
#[derive(Clone, Copy)]
pub struct State {
    pub count: u32,
    pub round: u32,
    pub nodes: [NodeState; 8],
}

// The most nodes, and of one node the most pending frames, and bytes in its queue.
pub const MAX_NODES: u32 = 8;

pub const MAX_PENDING: u8 = 4;

pub const QUEUE_CAPACITY: u16 = 4096;

// How many slots there are, and what one node and one slot have of the lent memory.
pub const SLOT_COUNT: usize = 32;

pub const SLOTS_PER_NODE: usize = MAX_PENDING as usize;

pub const BYTES_PER_QUEUE: usize = QUEUE_CAPACITY as usize;

pub const BYTES_PER_SLOT: usize = 2048;

// How many payload bytes and queue bytes are lent.
pub const PAYLOAD_BYTES: usize = 65536;

pub const QUEUE_BYTES: usize = 32768;

pub fn is_off(d: NodeState) -> bool
    ensures { result ≡ is_off d }
{
    d.status == NodeStatus::BusOff as u8
}

#[tactic(auto, using(crate::proofs::Tests::three))]
fn are_non_zero(rates: [u32; 3]) -> bool
    ensures { result ≡ non_zero rates }
{
    (1 <= rates[0]) & (1 <= rates[1]) & (1 <= rates[2])
}

// The tests leave at the first that fails, which is quicker than joining them by and (docs/notes/00-base-speed.md).
#[tactic(auto, unfolding(crate::specs::Valid::valid_entry))]
pub fn entry_is_valid(d: NodeState) -> bool
    ensures { result ≡ valid_entry d }
{
    if !operation::status_is_legal(d.status) {
        return false;
    }
    if !operation::is_behaviour(d.behaviour as u32) {
        return false;
    }
    if !are_non_zero(d.rates) {
        return false;
    }
    if QUEUE_CAPACITY < d.fill {
        return false;
    }
    if MAX_PENDING < d.pending {
        return false;
    }
    !is_off(d) | (d.pending == 0)
}

// Whether a frame of this node may stand behind one that was accepted at round low. That its own round is not to come is asked of a
// node's last frame alone (scan).
#[tactic(auto, unfolding(crate::specs::Follows::slot_follows))]
pub fn slot_follows(s: Slot, owner: u8, low: u32) -> bool
    ensures { result ≡ slot_follows owner low s }
{
    if s.owner != owner {
        return false;
    }
    if s.accepted < low {
        return false;
    }
    slots::is_legal(s)
}

// Reading and setting one entry and its fields, for the crates above: what is asked of j they must meet.
// Stays: a function a field, of two values each, so that no `From` says it: each is a step of the definitions (entry_fill and its like).

// Stays: from its half of the entries, since a copy of all was tried and takes longer (docs/notes/00-base-speed.md).
pub fn entry(s: State, j: usize) -> NodeState
    requires { j < 8 }
    ensures { result ≡ node_state s j }
{
    let nodes = s.nodes;
    if j < 4 {
        let low = [nodes[0], nodes[1], nodes[2], nodes[3]];
        return low[j];
    }
    let high = [nodes[4], nodes[5], nodes[6], nodes[7]];
    high[j - 4]
}

pub fn with_entry(s: State, j: usize, d: NodeState) -> State
    requires { j < 8 }
    ensures { result ≡ with_entry s j d }
{
    let mut nodes = s.nodes;
    nodes[j] = d;
    State { nodes, ..s }
}

pub fn with_fill(d: NodeState, fill: u16) -> NodeState
    ensures { result ≡ entry_fill d fill }
{
    NodeState { fill, ..d }
}

pub fn with_pending(d: NodeState, pending: u8) -> NodeState
    ensures { result ≡ entry_pending d pending }
{
    NodeState { pending, ..d }
}

pub fn with_status(d: NodeState, status: u8) -> NodeState
    ensures { result ≡ entry_status d status }
{
    NodeState { status, ..d }
}

pub fn with_behaviour(d: NodeState, behaviour: u8) -> NodeState
    ensures { result ≡ entry_behaviour d behaviour }
{
    NodeState { behaviour, ..d }
}

// Stays: by constant indices, with which a submit took 0.89 of its time; it misses its aim as it is (docs/PERFORMANCE.md).
#[tactic(auto, using(crate::proofs::Arrays::set_of_three))]
pub fn with_rate(mut d: NodeState, i: usize, rate: u32) -> NodeState
    requires { i < 3 }
    ensures { result ≡ entry_rates d (set d.rates i rate) }
{
    let rates = d.rates;
    if i == 0 {
        d.rates = [rate, rates[1], rates[2]];
        return d;
    }
    if i == 1 {
        d.rates = [rates[0], rate, rates[2]];
        return d;
    }
    d.rates = [rates[0], rates[1], rate];
    d
}
