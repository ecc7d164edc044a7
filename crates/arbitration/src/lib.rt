// One round on a valid state, given its winner: every queue is tested for what its node is owed, and only then bytes are written.
// This is for the bus crate above: what is required its caller must meet.
#![tactic(auto)]

ghost use Rattle.std.specs.Prelude.{◌≡◌, true, List, [], ◌+◌, ◌-◌, ◌*◌, ◌≤◌, ◌<◌, length, Option, Some};
ghost use Rattle.operation.specs.Kinds.{id_of};
ghost use Rattle.operation.specs.Format.{data_length, length_of, encode};
ghost use Rattle.operation.specs.Rules.{legal, max_extended_id};
ghost use Rattle.buffers.specs.Parts.{over};
ghost use Rattle.slots.specs.Slots.{held_in};
ghost use Rattle.plain_bus.specs.Held.{last_round};
ghost use Rattle.plain_bus.specs.Order.{wins};
ghost use Rattle.plain_bus.specs.Round.{injection_from};
ghost use Rattle.bus_state.specs.Memory.{held, slot_count, slots_per_node, bytes_per_slot, bytes_per_queue, is_off};
ghost use Rattle.bus_model.specs.Round.{pending_at};
ghost use Rattle.bus_model.specs.Calls.{arbitrate_in, rounded};
ghost use Rattle.outcome.specs.Ended.{ended_by, ended};
ghost use Rattle.arbitration.specs.Injections.{injection_of, has_legal_code, is_wrong};
ghost use Rattle.scan.specs.Winner.{owner_of};
ghost use Rattle.arbitration.specs.Drawn.{Drawn};
ghost use Rattle.arbitration.specs.Owed.{Frames, Tellable, PendingAt, discards, discarded, losers, told_count, stay_count, flag_at, news_to, notice_of, news_length, owed_length, room_from};
ghost use Rattle.arbitration.specs.After.{entry_after, state_after, queues_after, source, block_without, payload_without};

use bus_state::{NodeState, PAYLOAD_BYTES, QUEUE_BYTES, State};
use operation::Operation;
use outcome::{Change, Done, Refusal};
use scan::Winner;
use slots::Slot;

// An error injected into a round: its code, and the number of the node that detects it.
// Stays: numbers, since kf_round takes any: those of no code or node are refused with 6 (is_wrong).
#[derive(Clone, Copy)]
pub struct Injection {
    pub code: u32,
    pub detector: u32,
}

// From the numbers of a call: 0 for no error, any other for one.
// Stays: three numbers make it, as kf_round has them, and `From` takes one value (injection_from).
pub fn injection_of(injected: u32, code: u32, detector: u32) -> Option<Injection>
    ensures { injection_of result ≡ injection_from injected code detector }
{
    (injected != 0).then_some(Injection { code, detector })
}

// Whether an injection is refused: its code is not in the table, or its node not attached or Bus-Off.
#[tactic(auto, unfolding(crate::specs::Injections::is_wrong))]
fn is_wrong(s: State, e: Option<Injection>) -> bool
    requires { s.count ≤ 8 }
    ensures { result ≡ is_wrong s e }
{
    let Some(Injection { code, detector }) = e else {
        return false;
    };
    if s.count <= detector {
        return true;
    }
    let nodes = s.nodes;
    !operation::is_error_code(code) | bus_state::is_off(nodes[detector as usize])
}

// ---- the winner

// The first slot of the winner's node; 0 where there is no winner.
// Stays: a number in each case, as the definition has it (owner_of).
fn first_slot(best: Option<Winner>) -> usize
    requires { owner_of best < 8 }
    ensures { result ≡ slots_per_node * owner_of best }
{
    let Some(won) = best else {
        return 0;
    };
    bus_state::SLOTS_PER_NODE * won.owner
}

// ---- the removal of the winner

// Where what stands at i of a node's slots comes from, once the frame at a position is removed.
// Stays: two numbers and a bound, in three functions; a struct of the two would only wrap them (`source`).
fn source(position: usize, last: usize, i: usize) -> usize
    requires { (i < slots_per_node) × (last < slots_per_node) }
    ensures { (result ≡ source position last i) × (result < slots_per_node) }
{
    if (position <= i) & (i < last) {
        return i + 1;
    }
    i
}

// A node's four slots without the frame at a position; what stands behind the last pending one stays.
fn block_without(four: [Slot; 4], position: usize, last: usize) -> [Slot; 4]
    requires { last < slots_per_node }
    ensures { result ≡ block_without four position last }
{
    let first = four[source(position, last, 0)];
    let second = four[source(position, last, 1)];
    let third = four[source(position, last, 2)];
    let fourth = four[source(position, last, 3)];
    [first, second, third, fourth]
}

// The data of the frames behind a position of the four slots from a slot on, up to the last one's, move down by one slot.
fn move_data(
    payload: &mut [u8; PAYLOAD_BYTES],
    four: [Slot; 4],
    at: usize,
    position: usize,
    last: usize,
)
    requires position_le_last { (position ≤ last) × (last < slots_per_node) × (at + slots_per_node ≤ slot_count) }
    requires frames { Frames four position (last + 1) }
    ensures { payload.new ≡ payload_without four at position (last - position) payload.old }
{
    for q in position..last {
        let n = operation::data_length(slots::held_in(four[q + 1])) as usize;
        buffers::shift(
            payload,
            bus_state::BYTES_PER_SLOT * (at + q),
            bus_state::BYTES_PER_SLOT * (at + q + 1),
            n,
        );
    }
}

// ---- what each node is owed, in bytes

fn discards(d: NodeState) -> bool
    ensures { result ≡ discards d }
{
    d.behaviour as u32 == operation::LostBehavior::DiscardAndNotify as u32
}

// How many frames a node that discards has no more, the winner among them.
fn discarded(d: NodeState) -> u8
    ensures { result ≡ discarded d }
{
    if discards(d) {
        return d.pending;
    }
    0
}

// How many frames a node has pending besides the winner.
#[tactic(auto, using(crate::proofs::Bytes::byte_own))]
fn losers(d: NodeState, mine: bool) -> u8
    ensures { result ≡ losers d mine }
{
    d.pending.saturating_sub(mine as u8)
}

// How many of a node's frames are removed and told, the winner left out.
fn told_count(d: NodeState, mine: bool) -> u8
    ensures { result ≡ told_count d mine }
{
    if discards(d) {
        return losers(d, mine);
    }
    0
}

// How many stay pending.
fn stay_count(d: NodeState, mine: bool) -> u8
    ensures { result ≡ stay_count d mine }
{
    if discards(d) {
        return 0;
    }
    losers(d, mine)
}

// ---- the bytes

// Lays an operation with its data over a buffer from a position on.
fn put_operation(op: Operation, bytes: &[u8], buffer: &mut [u8], at: usize)
    requires op_value { (legal op ≡ true) × (length bytes.now ≡ data_length op) × (data_length op ≤ bytes_per_slot) }
    requires op_in_bounds { at + length_of op ≤ length buffer.old }
    ensures { buffer.new ≡ over buffer.old at (encode op bytes.now) }
{
    let _ = encoder::write(op, bytes, &mut buffer[at..]);
}

// The same of an Arbitration Lost, of which a round may write 31: by its own writer, since the choice by the kind takes longer.
fn put_lost(id: u32, buffer: &mut [u8], at: usize)
    requires { (legal (Operation.ArbitrationLost id) ≡ true) × (at + length_of (Operation.ArbitrationLost id) ≤ length buffer.old) }
    ensures { buffer.new ≡ over buffer.old at (encode (Operation.ArbitrationLost id) []) }
{
    let _ = encoder::write_arbitration_lost(id, b"", &mut buffer[at..]);
}

// Arbitration Lost for a frame by its ID, unless it is the winner; answers the place after it.
fn put_notice(id: u32, wins: bool, queues: &mut [u8], at: usize) -> usize
    requires { (id ≤ max_extended_id) × (at + length (notice_of wins id) ≤ length queues.old) }
    ensures value { result ≡ at + length (notice_of wins id) }
    ensures queues_after { queues.new ≡ over queues.old at (notice_of wins id) }
{
    if wins {
        return at;
    }
    put_lost(id, queues, at);
    at + operation::ARBITRATION_LOST_LENGTH
}

// ---- what a round tells

// The Error Flag at a node: the primary one where the error is detected.
fn flag_at(j: usize, detector: u32) -> u8
    ensures { result ≡ flag_at j detector }
{
    if j == detector as usize {
        return operation::ErrorFlag::Primary as u8;
    }
    operation::ErrorFlag::Secondary as u8
}

// What a round is about: the Transmit that won, with its ID, its length and its data, its sender, and the error injected into it.
#[derive(Clone, Copy)]
struct News<'a> {
    op: Operation,
    id: u32,
    size: usize,
    bytes: &'a [u8],
    owner: usize,
    error: Option<Injection>,
    ghost lawful: { legal op ≡ true },
    ghost named: { id ≡ id_of op },
    ghost low: { id ≤ max_extended_id },
    ghost short: { data_length op ≤ bytes_per_slot },
    ghost sized: { size ≡ length_of op },
    ghost whole: { length bytes.now ≡ data_length op },
    ghost in_table: { has_legal_code error ≡ true },
}

impl<'a> News<'a> {
    // How many bytes a node is told of the winner.
    fn length(&self, mine: bool, off: bool) -> usize
        ensures { result ≡ news_length self.now.error mine off self.now.size }
    {
        match self.error {
            None => {
                if mine {
                    return operation::CONFIRM_LENGTH;
                }
                if off {
                    return 0;
                }
                self.size
            }
            Some(_) => {
                if off {
                    return 0;
                }
                operation::BUS_ERROR_LENGTH
            }
        }
    }

    // How many bytes a node is owed in all.
    fn owed_length(&self, d: NodeState, mine: bool) -> usize
        ensures { result ≡ owed_length self.now.error d mine self.now.size }
    {
        let off = bus_state::is_off(d);
        self.length(mine, off) + operation::ARBITRATION_LOST_LENGTH * told_count(d, mine) as usize
    }

    // Whether every queue has room for what its node is owed.
    fn has_room(&self, s: State) -> bool
        requires { s.count ≤ 8 }
        ensures { result ≡ room_from self.now.error s.nodes self.now.owner self.now.size 0 s.count }
    {
        let attached = s.count as usize;
        let nodes = s.nodes;
        for j in 0..attached {
            let d = nodes[j];
            if bus_state::BYTES_PER_QUEUE < d.fill as usize + self.owed_length(d, j == self.owner) {
                return false;
            }
        }
        true
    }

    // Lays what node j is told of the winner over a buffer from a position on.
    fn put(&self, j: usize, off: bool, queues: &mut [u8], at: usize)
        requires { at + length (news_to self.now.error j self.now.owner off self.now.op self.now.bytes.now) ≤ length queues.old }
        ensures { queues.new ≡ over queues.old at (news_to self.now.error j self.now.owner off self.now.op self.now.bytes.now) }
    {
        let mine = j == self.owner;
        let error = self.error;
        if let Some(Injection { code, detector }) = error {
            if off {
                return;
            }
            let op = Operation::BusError {
                id: self.id,
                error_code: code as u8,
                error_flag: flag_at(j, detector),
                is_sender: mine as u8,
            };
            put_operation(op, b"", queues, at);
            return;
        }
        if mine {
            put_operation(Operation::Confirm { id: self.id }, b"", queues, at);
            return;
        }
        if off {
            return;
        }
        put_operation(self.op, self.bytes, queues, at);
    }

    // Writes what node j is told of the winner behind the fill of its queue, and answers the place after it.
    fn tell(&self, d: NodeState, j: usize, queues: &mut [u8]) -> usize
        requires { (j < 8) × (bytes_per_queue * j + d.fill + length (news_to self.now.error j self.now.owner (is_off d) self.now.op self.now.bytes.now) ≤ length queues.old) }
        ensures value { result ≡ bytes_per_queue * j + d.fill + length (news_to self.now.error j self.now.owner (is_off d) self.now.op self.now.bytes.now) }
        ensures queues_after { queues.new ≡ over queues.old (bytes_per_queue * j + d.fill) (news_to self.now.error j self.now.owner (is_off d) self.now.op self.now.bytes.now) }
    {
        let off = bus_state::is_off(d);
        let at = bus_state::BYTES_PER_QUEUE * j + d.fill as usize;
        self.put(j, off, queues, at);
        at + self.length(j == self.owner, off)
    }

    // A node's entry after the round.
    fn entry_after(&self, d: NodeState, mine: bool) -> NodeState
        requires { d.fill + owed_length self.now.error d mine self.now.size ≤ bytes_per_queue }
        ensures { result ≡ entry_after self.now.error d mine self.now.size }
    {
        let fill = d.fill + self.owed_length(d, mine) as u16;
        let pending = stay_count(d, mine);
        bus_state::with_pending(bus_state::with_fill(d, fill), pending)
    }

    // Writes what every node is owed, and gives the state after the round; the winner stands at a position, and every slot's ID in ids.
    fn tell_all(
        &self,
        s: State,
        position: usize,
        ids: &[u32; 32],
        queues: &mut [u8; QUEUE_BYTES],
    ) -> State
        requires tellable { (s.round < last_round) × Tellable s ids.now × PendingAt s self.now.owner position }
        requires room { room_from self.now.error s.nodes self.now.owner self.now.size 0 s.count ≡ true }
        ensures value { result ≡ state_after self.now.error s self.now.owner self.now.size }
        ensures queues_after { queues.new ≡ queues_after self.now.error s.nodes self.now.owner position self.now.op ids.now self.now.bytes.now 0 s.count queues.old }
    {
        let count = s.count as usize;
        let slot = bus_state::SLOTS_PER_NODE * self.owner + position;
        let mut after = s.nodes;
        for j in 0..count {
            let d = after[j];
            let mut to = self.tell(d, j, queues);
            let first = bus_state::SLOTS_PER_NODE * j;
            for p in first..first + discarded(d) as usize {
                to = put_notice(ids[p], p == slot, queues, to);
            }
            after[j] = self.entry_after(d, j == self.owner);
        }
        State {
            count: s.count,
            round: s.round + 1,
            nodes: after,
        }
    }
}

// ---- the round

// The round number at its largest.
const LAST_ROUND: u32 = 4294967295;

// A round that a frame won: refused where a queue is too full, or the round number at its largest. Else the queues are written, and then
// the frame is removed.
fn arbitrate(
    s: State,
    four: [Slot; 4],
    ids: [u32; 32],
    payload: &mut [u8; PAYLOAD_BYTES],
    queues: &mut [u8; QUEUE_BYTES],
    e: Option<Injection>,
    won: Winner,
) -> Change
    requires drawn { (a : List Slot) × Drawn s a (Some won) four ids }
    requires e_value { has_legal_code e ≡ true }
    ensures queues_after { (a : List Slot) → Drawn s a (Some won) four ids → ended_by result a payload.new queues.new ≡ ended (arbitrate_in (held s a payload.old queues.old) (injection_of e) (wins (pending_at (held s a payload.old queues.old) won.owner won.position))) }
    ensures at_value { result.at ≡ slots_per_node * won.owner }
{
    let Winner {
        owner,
        position,
        ..
    } = won;
    let at = bus_state::SLOTS_PER_NODE * owner;
    let winner = four[position];
    let op = slots::held_in(winner);
    let n = operation::data_length(op) as usize;
    let from = bus_state::BYTES_PER_SLOT * (at + position);
    let news = News {
        op,
        id: slots::id_of(winner),
        size: operation::head_length(op) + n,
        bytes: &payload[from..from + n],
        owner,
        error: e,
    };
    if !news.has_room(s) {
        return Change::refused(Refusal::QueueFull, s, at, four);
    }
    if LAST_ROUND <= s.round {
        return Change::refused(Refusal::RoundsUsedUp, s, at, four);
    }
    let state = news.tell_all(s, position, &ids, queues);
    let outcome = Done::Carried {
        sender: owner as u8,
        id: news.id,
        errored: e.is_some(),
        age: s.round - winner.accepted,
    };
    let d = bus_state::entry(s, owner);
    let last = d.pending as usize - 1;
    move_data(payload, four, at, position, last);
    let block = block_without(four, position, last);
    Change {
        outcome: Ok(outcome),
        state,
        at,
        block,
    }
}

// One round, for the winner among some slots, its node's four of them, and every slot's ID. The lent memory changes only where it is
// carried out.
pub fn round(
    s: State,
    best: Option<Winner>,
    four: [Slot; 4],
    ids: [u32; 32],
    payload: &mut [u8; PAYLOAD_BYTES],
    queues: &mut [u8; QUEUE_BYTES],
    e: Option<Injection>,
) -> Change
    requires drawn { (a : List Slot) × Drawn s a best four ids }
    ensures queues_after { (a : List Slot) → Drawn s a best four ids → ended_by result a payload.new queues.new ≡ ended (rounded (held s a payload.old queues.old) (injection_of e)) }
    ensures at_value { result.at ≡ slots_per_node * owner_of best }
    ensures slots_per_node_bound { result.at + slots_per_node ≤ slot_count }
{
    let at = first_slot(best);
    if is_wrong(s, e) {
        return Change::refused(Refusal::BadInjection, s, at, four);
    }
    let Some(won) = best else {
        return Change {
            outcome: Ok(Done::Idle),
            state: s,
            at,
            block: four,
        };
    };
    arbitrate(s, four, ids, payload, queues, e, won)
}
