// The calls of the bus with what the pass over the slots gave in their place: the refusals 1 and 3 in front, then what the call does.
// The public calls go over the lent slots, call these, and put back the slots that changed. That the key is that of some slots they must
// meet; what is promised holds for all slots that have it.
#![tactic(auto)]

ghost use Rattle.std.specs.Prelude.{◌≡◌, List, ◌+◌, ◌≤◌, length, Err};
ghost use Rattle.slots.specs.Blocks.{block_at};
ghost use Rattle.slots.specs.declared.Slot.{Slot};
ghost use Rattle.bus_state.specs.Memory.{held};
ghost use Rattle.bus_model.specs.Primitives.{new_entry, new_state};
ghost use Rattle.bus_model.specs.Calls.{start_in, submit_in, round_in, collect_in, buffer_after};
ghost use Rattle.outcome.specs.Outcome.{answer_of};
ghost use Rattle.outcome.specs.Ended.{ended_by, ended};
ghost use Rattle.plain_bus.specs.Round.{injection_from};
ghost use Rattle.submission.specs.Carrying.{first_slot};
ghost use Rattle.bus.specs.Left.{left, leaves};
ghost use Rattle.bus.specs.Given.{started_by, Scanned, Counted, Taken};
ghost use Rattle.bus.specs.Tested.{lent_sizes, tested};

use bus_state::{NodeState, PAYLOAD_BYTES, QUEUE_BYTES, State};
use operation::{LostBehavior, NodeStatus};
use outcome::{Answer, Change, Done, Outcome, Refusal};
use slots::Slot;

const SLOTS: usize = bus_state::SLOT_COUNT;

// What a node starts with.
const START_STATUS: u8 = NodeStatus::ErrorActive as u8;

const START_BEHAVIOUR: u8 = LostBehavior::BufferAndRetransmit as u8;

const START_CAN_RATE: u32 = 500_000;

const START_FD_RATE: u32 = 2_000_000;

const START_XL_RATE: u32 = 10_000_000;

// The outcome of a start, with the state and all slots after it.
#[derive(Clone, Copy)]
pub struct Started {
    pub outcome: Outcome,
    pub state: State,
    pub slots: [Slot; 32],
}

fn new_entry() -> NodeState
    ensures { result ≡ new_entry }
{
    NodeState {
        rates: [START_CAN_RATE, START_FD_RATE, START_XL_RATE],
        fill: 0,
        status: START_STATUS,
        behaviour: START_BEHAVIOUR,
        pending: 0,
    }
}

pub fn new_state(count: u32) -> State
    ensures { result ≡ new_state count }
{
    let entry = new_entry();
    let nodes = [entry; 8];
    State {
        count,
        round: 0,
        nodes,
    }
}

// Whether the lent slots, payload bytes and queue bytes are as many as they must be.
fn are_lent(slots: usize, payload: usize, queues: usize) -> bool
    ensures { result ≡ lent_sizes slots payload queues }
{
    if slots != SLOTS {
        return false;
    }
    if payload != PAYLOAD_BYTES {
        return false;
    }
    queues == QUEUE_BYTES
}

// The tests for 1 and 3, by what is lent and the key of the slots.
fn test_lent(slots: usize, payload: usize, queues: usize, key: u64) -> Result<(), Refusal>
    ensures { result ≡ tested slots payload queues key }
{
    if !are_lent(slots, payload, queues) {
        return Err(Refusal::WrongMemory);
    }
    if key == scan::INVALID {
        return Err(Refusal::Invalid);
    }
    Ok(())
}

pub fn start(a: [Slot; 32], payload: &[u8], queues: &[u8], count: u32) -> Started
    ensures { started_by result payload.now queues.now ≡ ended (start_in (held (new_state 0) a payload.now queues.now) count) }
{
    if !are_lent(SLOTS, payload.len(), queues.len()) {
        return Started {
            outcome: Err(Refusal::WrongMemory),
            state: new_state(0),
            slots: a,
        };
    }
    if (2 <= count) & (count <= 8) {
        let free = slots::free();
        return Started {
            outcome: Ok(Done::Accepted),
            state: new_state(count),
            slots: [free; 32],
        };
    }
    Started {
        outcome: Err(Refusal::BadNodeCount),
        state: new_state(0),
        slots: a,
    }
}

// The sender's four slots are those from submission::first_slot(node) on.
pub fn submit(
    s: State,
    key: u64,
    four: [Slot; 4],
    payload: &mut [u8],
    queues: &mut [u8],
    node: u32,
    buffer: &[u8],
) -> Change
    requires { (a : List Slot) × Scanned s key a }
    ensures ended { (a : List Slot) → Scanned s key a → block_at a (first_slot node) ≡ four → ended_by result a payload.new queues.new ≡ ended (submit_in (held s a payload.old queues.old) node buffer.now) }
    ensures inside { result.at + 4 ≤ 32 }
{
    let at = submission::first_slot(node);
    if let Err(refusal) = test_lent(SLOTS, payload.len(), queues.len(), key) {
        return Change::refused(refusal, s, at, four);
    }
    let payload = payload.as_mut_array::<PAYLOAD_BYTES>().unwrap();
    let queues = queues.as_mut_array::<QUEUE_BYTES>().unwrap();
    submission::submit(s, four, payload, queues, node, buffer)
}

// The four slots are those from scan::winner_block(key) on, and the IDs those of all slots.
pub fn round(
    s: State,
    key: u64,
    four: [Slot; 4],
    ids: [u32; 32],
    payload: &mut [u8],
    queues: &mut [u8],
    injected: u32,
    code: u32,
    detector: u32,
) -> Change
    requires { (a : List Slot) × Taken s key four ids a }
    ensures ended { (a : List Slot) → Taken s key four ids a → ended_by result a payload.new queues.new ≡ ended (round_in (held s a payload.old queues.old) (injection_from injected code detector)) }
    ensures inside { result.at + 4 ≤ 32 }
{
    let at = scan::winner_block(key);
    if let Err(refusal) = test_lent(SLOTS, payload.len(), queues.len(), key) {
        return Change::refused(refusal, s, at, four);
    }
    let payload = payload.as_mut_array::<PAYLOAD_BYTES>().unwrap();
    let queues = queues.as_mut_array::<QUEUE_BYTES>().unwrap();
    let best = scan::winner_of(key);
    let e = arbitration::injection_of(injected, code, detector);
    arbitration::round(s, best, four, ids, payload, queues, e)
}

// The queue goes to the front of the caller's buffer. The slots are as many as slots says.
pub fn collect(
    s: State,
    slots: usize,
    key: u64,
    payload: &[u8],
    queues: &[u8],
    node: u32,
    buffer: &mut [u8],
) -> Answer
    requires { (a : List Slot) × Counted s slots key a }
    ensures left { (a : List Slot) → Counted s slots key a → left result a payload.now queues.now ≡ leaves (collect_in (held s a payload.now queues.now) node (length buffer.old)) }
    ensures written { (a : List Slot) → Counted s slots key a → buffer.new ≡ buffer_after (collect_in (held s a payload.now queues.now) node (length buffer.old)).reply buffer.old }
{
    if let Err(refusal) = test_lent(slots, payload.len(), queues.len(), key) {
        return outcome::answer_of(Err(refusal), s);
    }
    if s.count <= node {
        return outcome::answer_of(Err(Refusal::NotAttached), s);
    }
    let k = node as usize;
    let d = bus_state::entry(s, k);
    let fill = d.fill as usize;
    if buffer.len() < fill {
        return outcome::answer_of(Err(Refusal::RoomTooSmall), s);
    }
    let at = bus_state::QUEUE_CAPACITY as usize * k;
    buffers::put(buffer, 0, &queues[at..at + fill]);
    let empty = bus_state::with_fill(d, 0);
    outcome::answer_of(
        Ok(Done::Collected(d.fill)),
        bus_state::with_entry(s, k, empty),
    )
}

// For the public calls: an answer without the slots' part.

pub fn wrong_memory(s: State) -> Answer
    ensures { result ≡ answer_of (Err Refusal.WrongMemory) s }
{
    outcome::answer_of(Err(Refusal::WrongMemory), s)
}

pub fn no_start() -> Answer
    ensures { result ≡ answer_of (Err Refusal.WrongMemory) (new_state 0) }
{
    outcome::answer_of(Err(Refusal::WrongMemory), new_state(0))
}
