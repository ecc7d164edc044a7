// Submitting a buffer (01: handing in) to a valid state: decided on the state alone first, then carried out. A refused buffer has
// touched no lent byte. This is for the bus crate above: what is required its caller must meet.
#![tactic(auto)]

ghost use Rattle.std.specs.Prelude.{◌≡◌, true, List, [], ◌+◌, ◌*◌, ◌≤◌, ◌<◌, length, Ok, IfOk, IfErr};
ghost use Rattle.operation.specs.Rules.{legal};
ghost use Rattle.operation.specs.Format.{length_of, encode};
ghost use Rattle.buffers.specs.Parts.{over};
ghost use Rattle.decoder.specs.Stream.{items_of};
ghost use Rattle.slots.specs.Blocks.{set_block, block_at};
ghost use Rattle.slots.specs.declared.Slot.{Slot};
ghost use Rattle.plain_bus.specs.Submit.{format_error};
ghost use Rattle.plain_bus.specs.Calls.{max_submit};
ghost use Rattle.bus_state.specs.Memory.{held, node_state, slot_count, slots_per_node, bytes_per_slot, bytes_per_queue};
ghost use Rattle.bus_state.specs.Entries.{with_entry};
ghost use Rattle.bus_model.specs.Calls.{submitted};
ghost use Rattle.outcome.specs.Ended.{ended_by, ended};
ghost use Rattle.submission.specs.Effects.{configuration_effect, operation_effect, fault_effect, SmallRate, NextIs};
ghost use Rattle.submission.specs.Checked.{refusal_of, Passed, Refused};
ghost use Rattle.submission.specs.Counting.{unreached, fill_woken, entry_woken, wakeup_room, woken_by, is_wakeup, answer_length, status_set, entry_check, entry_after, check_items};
ghost use Rattle.submission.specs.Carrying.{memory_after_all, queue_with, wakeup_laid, wakeups_laid, first_slot};

use bus_state::{NodeState, PAYLOAD_BYTES, QUEUE_BYTES, State};
use decoder::{Cursor, Reading};
use operation::{Code, ConfigurationKind, NodeStatus, Operation};
use outcome::{Change, Done, Refusal};
use slots::Slot;

// What an item of a buffer does.
// Stays: settings are numbers, as the C interface holds them in NodeState (kf_submit).
#[derive(Clone, Copy)]
enum Effect {
    Nothing,
    Transmit(Operation),
    Answer,
    SetRate(u8, u32),
    SetBehaviour(u8),
    SetStatus(u8),
    Wake,
}

// What an item does, and where it ends.
#[derive(Clone, Copy)]
struct Step {
    effect: Effect,
    end: usize,
}

// What a step lacks that can't be done: a place for one more pending frame, or room in a queue.
#[derive(Clone, Copy, Debug, PartialEq, Eq)]
enum Lack {
    FourPending,
    QueueFull,
}

impl From<Lack> for Refusal {
    ghost from_gives = { λ lack r. r ≡ refusal_of lack };

    fn from(lack: Lack) -> Refusal {
        match lack {
            Lack::FourPending => Refusal::FourPending,
            Lack::QueueFull => Refusal::QueueFull,
        }
    }
}

// The most bytes of a buffer.
const LONGEST_BUFFER: usize = 4086;

// ---- what an item does

fn configuration_effect(kind: u8, value: u32) -> Effect
    requires { legal (Operation.Configuration kind value) ≡ true }
    ensures { result ≡ configuration_effect kind value }
{
    if kind == ConfigurationKind::ArbitrationLostBehavior as u8 {
        return Effect::SetBehaviour(value as u8);
    }
    Effect::SetRate(kind - 1, value)
}

#[tactic(auto, unfolding(crate::specs::Effects::operation_effect))]
fn operation_effect(op: &Operation) -> Effect
    requires { legal op.now ≡ true }
    ensures { result ≡ operation_effect op.now }
{
    match *op {
        Operation::FormatError { .. } => Effect::Nothing,
        Operation::CanTransmit { .. }
        | Operation::FdTransmit { .. }
        | Operation::XlTransmit { .. } => Effect::Transmit(*op),
        Operation::Confirm { .. }
        | Operation::ArbitrationLost { .. }
        | Operation::BusError { .. } => Effect::Answer,
        Operation::Configuration { kind, value } => configuration_effect(kind, value),
        Operation::Status { status } => Effect::SetStatus(status),
        Operation::Wakeup => Effect::Wake,
    }
}

// A faulty operation of at least four bytes whose code is that of Format Error has no effect.
#[tactic(auto, unfolding(crate::specs::Effects::fault_effect))]
fn fault_effect(bytes: &[u8]) -> Effect
    ensures { result ≡ fault_effect bytes.now }
{
    if (4 <= bytes.len()) & (decoder::code_of(bytes) == Code::FormatError as u32) {
        return Effect::Nothing;
    }
    Effect::Answer
}

// The step at a position of a buffer; at its end there is none.
fn step_at(buffer: &[u8], at: usize) -> Option<Step>
    ensures { NextIs buffer.now at result }
{
    let reading = (Cursor { at }).read(buffer)?;
    let end = reading.next.at;
    let effect = match &reading.item {
        Ok(op) => operation_effect(op),
        Err(_) => fault_effect(&buffer[at..end]),
    };
    Some(Step { effect, end })
}

// ---- Wakeups of node k, on the entries of all nodes

// They do not go to node j, of this entry.
fn is_unreached(d: NodeState, k: usize, j: usize) -> bool
    ensures { result ≡ unreached d.status k j }
{
    (j == k) | bus_state::is_off(d)
}

// The fill of node j's queue with u of them.
// Stays: d is the entry of node j, k the sender, u its Wakeups: a struct of them would be made anew in each turn of a loop (wake).
#[tactic(auto, unfolding(crate::specs::Counting::wakeup_length))]
fn fill_woken(d: NodeState, k: usize, u: u32, j: usize) -> usize
    ensures { result ≡ fill_woken d k u j }
{
    let fill = d.fill as usize;
    if is_unreached(d, k, j) {
        return fill;
    }
    fill + u as usize * operation::WAKEUP_LENGTH
}

fn entry_woken(d: NodeState, k: usize, u: u32, j: usize) -> NodeState
    requires { fill_woken d k u j ≤ bytes_per_queue }
    ensures { result ≡ entry_woken d k u j }
{
    bus_state::with_fill(d, fill_woken(d, k, u, j) as u16)
}

// ---- a step, on the sender's entry

// A Wakeup goes to the other nodes; from a Bus-Off node it has no effect.
#[tactic(auto, unfolding(crate::specs::Counting::is_wakeup))]
fn is_wakeup(d: NodeState, effect: Effect) -> bool
    ensures { result ≡ is_wakeup d effect }
{
    match effect {
        Effect::Wake => !bus_state::is_off(d),
        _ => false,
    }
}

// Whether the entry lets a step of so many bytes be done.
#[tactic(auto, unfolding(crate::specs::Counting::entry_check))]
fn entry_check(d: NodeState, effect: Effect, size: usize) -> Result<(), Lack>
    requires { size ≤ max_submit }
    ensures { result ≡ entry_check d effect size }
{
    match effect {
        Effect::Transmit(_) => {
            if bus_state::is_off(d) {
                return Ok(());
            }
            if bus_state::MAX_PENDING <= d.pending {
                return Err(Lack::FourPending);
            }
            Ok(())
        }
        Effect::Answer => {
            if d.fill as usize + (operation::FORMAT_ERROR_HEAD + size)
                <= bus_state::BYTES_PER_QUEUE
            {
                return Ok(());
            }
            Err(Lack::QueueFull)
        }
        _ => Ok(()),
    }
}

// Status Bus-Off removes all the node's pending frames and empties its queue.
#[tactic(auto, unfolding(crate::specs::Counting::status_set))]
fn status_set(d: NodeState, status: u8) -> NodeState
    ensures { result ≡ status_set d status }
{
    if status == NodeStatus::BusOff as u8 {
        let cleared = bus_state::with_fill(bus_state::with_pending(d, 0), 0);
        return bus_state::with_status(cleared, status);
    }
    bus_state::with_status(d, status)
}

// The entry after a step that can be done.
#[tactic(auto, unfolding(crate::specs::Counting::entry_after))]
fn entry_after(d: NodeState, effect: Effect, size: usize) -> NodeState
    requires { (size ≤ max_submit) × (entry_check d effect size ≡ Ok tt) × SmallRate effect }
    ensures { result ≡ entry_after d effect size }
{
    match effect {
        Effect::Transmit(_) => {
            if bus_state::is_off(d) {
                return d;
            }
            bus_state::with_pending(d, d.pending + 1)
        }
        Effect::Answer => {
            let fill = d.fill as usize + (operation::FORMAT_ERROR_HEAD + size);
            bus_state::with_fill(d, fill as u16)
        }
        Effect::SetRate(i, rate) => bus_state::with_rate(d, i as usize, rate),
        Effect::SetBehaviour(behaviour) => bus_state::with_behaviour(d, behaviour),
        Effect::SetStatus(status) => status_set(d, status),
        Effect::Nothing | Effect::Wake => d,
    }
}

// ---- carrying it out

// Lays a Wakeup over a buffer from a position on.
// Stays: this and the next beside arbitration's put_operation: each writes by a function a kind, and builds no operation.
fn lay_wakeup(queues: &mut [u8], at: usize)
    requires { at + length_of Operation.Wakeup ≤ length queues.old }
    ensures { queues.new ≡ over queues.old at (encode Operation.Wakeup []) }
{
    let _ = encoder::write_wakeup(b"", &mut queues[at..]);
}

// Lays a Format Error that answers some bytes over a buffer from a position on.
fn lay_format_error(queues: &mut [u8], at: usize, bytes: &[u8])
    requires { (length bytes.now ≤ max_submit) × (at + answer_length (length bytes.now) ≤ length queues.old) }
    ensures { queues.new ≡ over queues.old at (format_error bytes.now) }
{
    let _ = encoder::write_format_error(bytes.len() as u16, bytes, &mut queues[at..]);
}

// Lays the data of node k's next frame into the bytes of the slot after its last.
fn lay_data(d: NodeState, k: usize, bytes: &[u8], payload: &mut [u8; PAYLOAD_BYTES])
    requires { (k < 8) × (d.pending < slots_per_node) × (length bytes.now ≤ bytes_per_slot) }
    ensures { payload.new ≡ over payload.old (bytes_per_slot * (slots_per_node * k + d.pending)) bytes.now }
{
    let q = d.pending as usize;
    buffers::put(
        payload,
        bus_state::BYTES_PER_SLOT * (bus_state::SLOTS_PER_NODE * k + q),
        bytes,
    );
}

// Answers some bytes of node k with a Format Error behind the fill of its queue.
fn answer(d: NodeState, k: usize, bytes: &[u8], queues: &mut [u8; QUEUE_BYTES])
    requires { (k < 8) × (d.fill + answer_length (length bytes.now) ≤ bytes_per_queue) }
    ensures { queues.new ≡ queue_with d k queues.old (format_error bytes.now) }
{
    lay_format_error(
        queues,
        bus_state::BYTES_PER_QUEUE * k + d.fill as usize,
        bytes,
    );
}

// Puts one more Wakeup of node k, behind u of them, into the queue of node j.
fn wake_at(d: NodeState, k: usize, u: u32, j: usize, queues: &mut [u8; QUEUE_BYTES])
    requires { (j < 8) × (fill_woken d k (u + 1) j ≤ bytes_per_queue) }
    ensures { queues.new ≡ wakeup_laid d k u j queues.old }
{
    if is_unreached(d, k, j) {
        return;
    }
    lay_wakeup(
        queues,
        bus_state::BYTES_PER_QUEUE * j + fill_woken(d, k, u, j),
    );
}

// ---- a buffer of a node

// A node that hands a buffer in, at the state as it was.
#[derive(Clone, Copy)]
struct Sender<'a> {
    state: &'a State,
    node: usize,
    ghost number: { node < 8 },
    ghost few: { state.now.count ≤ 8 },
    ghost eight: { length state.now.nodes ≡ 8 },
    ghost own: { (node_state state.now node).fill ≤ bytes_per_queue },
}

impl<'a> Sender<'a> {
    // Whether every queue has room for u of its Wakeups.
    fn wakeups_have_room(&self, u: u32) -> bool
        ensures { result ≡ wakeup_room self.now.state.now.nodes self.now.node u 0 self.now.state.now.count }
    {
        for j in 0..self.state.count as usize {
            let d = self.state.nodes[j];
            if bus_state::BYTES_PER_QUEUE < fill_woken(d, self.node, u, j) {
                return false;
            }
        }
        true
    }

    // The state with u of its Wakeups.
    fn woken(&self, u: u32) -> State
        requires { wakeup_room self.now.state.now.nodes self.now.node u 0 self.now.state.now.count ≡ true }
        ensures { result ≡ woken_by self.now.state.now self.now.node u }
    {
        let mut nodes = self.state.nodes;
        for j in 0..self.state.count as usize {
            let d = nodes[j];
            nodes[j] = entry_woken(d, self.node, u, j);
        }
        State {
            nodes,
            ..*self.state
        }
    }

    // Whether a buffer is taken: the first step that can't be done decides. Every step but a Wakeup is about the sender's entry alone, so
    // the state stays as it was, beside the entry and the number of Wakeups so far.
    fn check_buffer(&self, entry: NodeState, buffer: &[u8]) -> Result<(), Lack>
        requires { (length buffer.now ≤ max_submit) × (entry ≡ node_state self.now.state.now self.now.node) }
        ensures { result ≡ check_items self.now.node (items_of buffer.now) self.now.state.now }
    {
        let mut d = entry;
        let mut wakeups: u32 = 0;
        let mut at: usize = 0;
        while let Some(step) = step_at(buffer, at) {
            // Stays: `at` is where the step begins; a Cursor in Step would say the same (NextIs).
            let effect = step.effect;
            let size = step.end - at;
            if is_wakeup(d, effect) {
                if !self.wakeups_have_room(wakeups + 1) {
                    return Err(Lack::QueueFull);
                }
                wakeups += 1;
            } else {
                entry_check(d, effect, size)?;
                d = entry_after(d, effect, size);
            }
            at = step.end;
        }
        Ok(())
    }

    // Puts one more of its Wakeups, behind u of them, into the queue of every other node that is not Bus-Off.
    fn wake(&self, u: u32, queues: &mut [u8; QUEUE_BYTES])
        requires { wakeup_room self.now.state.now.nodes self.now.node (u + 1) 0 self.now.state.now.count ≡ true }
        ensures { queues.new ≡ wakeups_laid self.now.state.now.nodes self.now.node u 0 self.now.state.now.count queues.old }
    {
        for j in 0..self.state.count as usize {
            let d = self.state.nodes[j];
            wake_at(d, self.node, u, j, queues);
        }
    }

    // The state after all steps: with u of its Wakeups, and its entry.
    fn state_left(&self, u: u32, d: NodeState) -> State
        requires { 0 < u → wakeup_room self.now.state.now.nodes self.now.node u 0 self.now.state.now.count ≡ true }
        ensures { result ≡ with_entry (woken_by self.now.state.now self.now.node u) self.now.node d }
    {
        if u == 0 {
            return bus_state::with_entry(*self.state, self.node, d);
        }
        bus_state::with_entry(self.woken(u), self.node, d)
    }

    // Carries a buffer out, of which every step can be done, with the sender's four slots, those from `start` on. Whatever the other slots
    // are, they stay.
    // Stays: four locals: an array was tried and takes longer (docs/notes/00-base-speed.md), and a submit misses its aim as it is.
    fn carry_buffer(
        &self,
        start: usize,
        entry: NodeState,
        buffer: &[u8],
        four: [Slot; 4],
        payload: &mut [u8; PAYLOAD_BYTES],
        queues: &mut [u8; QUEUE_BYTES],
    ) -> Change
        requires value { (length buffer.now ≤ max_submit) × (entry ≡ node_state self.now.state.now self.now.node) }
        requires goes { check_items self.now.node (items_of buffer.now) self.now.state.now ≡ Ok tt }
        ensures outcome { (result.outcome ≡ Ok Done.Accepted) × (result.at ≡ start) }
        ensures memory { (slots : List Slot) → held result.state (set_block slots (slots_per_node * self.now.node) result.block) payload.new queues.new ≡ memory_after_all self.now.node (items_of buffer.now) (held self.now.state.now (set_block slots (slots_per_node * self.now.node) four) payload.old queues.old) }
    {
        let mut first = four[0];
        let mut second = four[1];
        let mut third = four[2];
        let mut fourth = four[3];
        let mut d = entry;
        let mut wakeups: u32 = 0;
        let mut at: usize = 0;
        while let Some(step) = step_at(buffer, at) {
            // Stays: `at` as in check_buffer.
            let effect = step.effect;
            let end = step.end;
            let after = entry_after(d, effect, end - at);
            match effect {
                Effect::Transmit(op) => {
                    if !bus_state::is_off(d) {
                        lay_data(
                            d,
                            self.node,
                            decoder::data(buffer, op, Cursor { at: end }),
                            payload,
                        );
                        let slot = slots::slot_of(op, self.node as u8, self.state.round);
                        let q = d.pending;
                        match q {
                            0 => {
                                first = slot;
                            }
                            1 => {
                                second = slot;
                            }
                            2 => {
                                third = slot;
                            }
                            _ => {
                                fourth = slot;
                            }
                        }
                    }
                }
                Effect::Answer => {
                    answer(d, self.node, &buffer[at..end], queues);
                }
                Effect::Wake => {
                    if !bus_state::is_off(d) {
                        self.wake(wakeups, queues);
                        wakeups += 1;
                    }
                }
                Effect::Nothing
                | Effect::SetRate(..)
                | Effect::SetBehaviour(_)
                | Effect::SetStatus(_) => {}
            }
            d = after;
            at = end;
        }
        Change {
            outcome: Ok(Done::Accepted),
            state: self.state_left(wakeups, d),
            at: start,
            block: [first, second, third, fourth],
        }
    }
}

// The first of a node's four slots, for the caller that holds all: of a number past the last node it is slot 0.
#[tactic(auto, unfolding(crate::specs::Carrying::first_slot))]
pub fn first_slot(node: u32) -> usize
    ensures { (result ≡ first_slot node) × (result + slots_per_node ≤ slot_count) }
{
    if node < bus_state::MAX_NODES {
        return bus_state::SLOTS_PER_NODE * node as usize;
    }
    0
}

// The sender's entry, where nothing refuses its buffer: NotAttached, BufferTooLong, then what the first step lacks that can't be done.
fn checked(s: &State, node: u32, buffer: &[u8]) -> Result<NodeState, Refusal>
    requires { (s.now.count ≤ 8) × (node < s.now.count → (node_state s.now node).fill ≤ bytes_per_queue) }
    ensures passed { IfOk result (Passed s.now node buffer.now) }
    ensures refused { IfErr result (Refused s.now node buffer.now) }
{
    if s.count <= node {
        return Err(Refusal::NotAttached);
    }
    if LONGEST_BUFFER < buffer.len() {
        return Err(Refusal::BufferTooLong);
    }
    let sender = Sender {
        state: s,
        node: node as usize,
    };
    let d = s.nodes[sender.node];
    sender.check_buffer(d, buffer)?;
    Ok(d)
}

// Submits a buffer of a node: a refusal leaves all as it was, else all steps are carried out. Of the slots it has the node's four alone:
// whatever the others are, they stay.
pub fn submit(
    s: State,
    four: [Slot; 4],
    payload: &mut [u8; PAYLOAD_BYTES],
    queues: &mut [u8; QUEUE_BYTES],
    node: u32,
    buffer: &[u8],
) -> Change
    requires { (s.count ≤ 8) × (node < s.count → (node_state s node).fill ≤ bytes_per_queue) }
    ensures ended { (a : List Slot) → block_at a result.at ≡ four → ended_by result a payload.new queues.new ≡ ended (submitted (held s a payload.old queues.old) node buffer.now) }
    ensures place { result.at ≡ first_slot node }
    ensures inside { result.at + slots_per_node ≤ slot_count }
{
    let at = first_slot(node);
    match checked(&s, node, buffer) {
        Ok(d) => {
            let sender = Sender {
                state: &s,
                node: node as usize,
            };
            sender.carry_buffer(at, d, buffer, four, payload, queues)
        }
        Err(refusal) => Change::refused(refusal, s, at, four),
    }
}
