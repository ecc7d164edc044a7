// The public calls, over records of plain numbers and lent buffers. kettlefrost_c exports them to C.
#![tactic(auto)]

pub mod layout;
pub mod register;

ghost use Rattle.std.specs.Prelude.{◌≡◌, length, ◌+◌, ◌<◌};
ghost use Rattle.decoder.specs.Front.{decode};
ghost use Rattle.decoder.specs.Reading.{read_at};
ghost use Rattle.bus_state.specs.Memory.{held};
ghost use Rattle.bus_model.specs.Primitives.{new_state};
ghost use Rattle.bus_model.specs.Calls.{start_in, submit_in, round_in, collect_in, buffer_after};
ghost use Rattle.plain_bus.specs.Round.{injection_from};
ghost use Rattle.bus.specs.Left.{left, leaves};
ghost use Rattle.kettlefrost.specs.Flat.{flat, named};
ghost use Rattle.kettlefrost.specs.Calls.{no_operation, item_answer, read_answer, data_answer, length_written, answer_named, write_answer, buffer_after_write};

use bus_state::State;
use decoder::{Cursor, Fault, Front};
use encoder::WriteError;
use operation::{Code, Operation};
use outcome::Answer;
use slots::Slot;

// An operation: its code, and its fields in the order of the table; 0 where its kind has no such field. word is AF, or the value
// of a Configuration; length is DL or n; first to fourth are the one-byte fields.
// Stays: numbers and flags in this record and the next three, as C has them (kf_read, kf_data, kf_write).
#[repr(C)]
#[derive(Clone, Copy)]
pub struct FlatOperation {
    pub code: u32,
    pub id: u32,
    pub word: u32,
    pub length: u16,
    pub first: u8,
    pub second: u8,
    pub third: u8,
    pub fourth: u8,
}

#[repr(C)]
#[derive(Clone, Copy)]
pub struct ReadAnswer {
    pub end: u32,
    pub fault: u32,
    pub next: usize,
    pub operation: FlatOperation,
}

#[repr(C)]
#[derive(Clone, Copy)]
pub struct PartAnswer {
    pub start: usize,
    pub length: usize,
}

#[repr(C)]
#[derive(Clone, Copy)]
pub struct WriteAnswer {
    pub refusal: usize,
    pub length: usize,
}

// The record of no operation, and what a kind has no field for.
const BLANK: FlatOperation = FlatOperation {
    code: 0,
    id: 0,
    word: 0,
    length: 0,
    first: 0,
    second: 0,
    third: 0,
    fourth: 0,
};

impl From<Operation> for FlatOperation {
    ghost from_gives = { λ op f. f ≡ flat op };

    fn from(op: Operation) -> FlatOperation {
        match op {
            Operation::FormatError { n } => FlatOperation {
                code: Code::FormatError as u32,
                length: n,
                ..BLANK
            },
            Operation::CanTransmit { id, ide, rtr, dl } => FlatOperation {
                code: Code::CanTransmit as u32,
                id,
                length: dl,
                first: ide,
                second: rtr,
                ..BLANK
            },
            Operation::FdTransmit {
                id,
                ide,
                brs,
                esi,
                dl,
            } => FlatOperation {
                code: Code::FdTransmit as u32,
                id,
                length: dl,
                first: ide,
                second: brs,
                third: esi,
                ..BLANK
            },
            Operation::XlTransmit {
                id,
                ide,
                sec,
                sdt,
                vcid,
                af,
                dl,
            } => FlatOperation {
                code: Code::XlTransmit as u32,
                id,
                word: af,
                length: dl,
                first: ide,
                second: sec,
                third: sdt,
                fourth: vcid,
            },
            Operation::Confirm { id } => FlatOperation {
                code: Code::Confirm as u32,
                id,
                ..BLANK
            },
            Operation::ArbitrationLost { id } => FlatOperation {
                code: Code::ArbitrationLost as u32,
                id,
                ..BLANK
            },
            Operation::BusError {
                id,
                error_code,
                error_flag,
                is_sender,
            } => FlatOperation {
                code: Code::BusError as u32,
                id,
                first: error_code,
                second: error_flag,
                third: is_sender,
                ..BLANK
            },
            Operation::Configuration { kind, value } => FlatOperation {
                code: Code::Configuration as u32,
                word: value,
                first: kind,
                ..BLANK
            },
            Operation::Status { status } => FlatOperation {
                code: Code::Status as u32,
                first: status,
                ..BLANK
            },
            Operation::Wakeup => FlatOperation {
                code: Code::Wakeup as u32,
                ..BLANK
            },
        }
    }
}

impl FlatOperation {
    // The operation that the record names, by its code; fields that its kind does not have are not looked at.
    #[tactic(auto, using(crate::proofs::Tables::named_by))]
    fn operation(self) -> Option<Operation>
        ensures { result ≡ named self }
    {
        let code = Code::try_from(self.code).ok()?;
        Some(match code {
            Code::FormatError => Operation::FormatError { n: self.length },
            Code::CanTransmit => Operation::CanTransmit {
                id: self.id,
                ide: self.first,
                rtr: self.second,
                dl: self.length,
            },
            Code::FdTransmit => Operation::FdTransmit {
                id: self.id,
                ide: self.first,
                brs: self.second,
                esi: self.third,
                dl: self.length,
            },
            Code::XlTransmit => Operation::XlTransmit {
                id: self.id,
                ide: self.first,
                sec: self.second,
                sdt: self.third,
                vcid: self.fourth,
                af: self.word,
                dl: self.length,
            },
            Code::Confirm => Operation::Confirm { id: self.id },
            Code::ArbitrationLost => Operation::ArbitrationLost { id: self.id },
            Code::BusError => Operation::BusError {
                id: self.id,
                error_code: self.first,
                error_flag: self.second,
                is_sender: self.third,
            },
            Code::Configuration => Operation::Configuration {
                kind: self.first,
                value: self.word,
            },
            Code::Status => Operation::Status { status: self.first },
            Code::Wakeup => Operation::Wakeup,
        })
    }
}

// No operation: at the end, or a fault.
fn no_operation(end: u32, fault: u32, next: usize) -> ReadAnswer
    ensures { result ≡ no_operation end fault next }
{
    ReadAnswer {
        end,
        fault,
        next,
        operation: BLANK,
    }
}

// What was read, with the position behind it.
// Stays: the item and the position make it together, and `From` takes one value (item_answer).
fn answer_item(item: Result<Operation, Fault>, next: usize) -> ReadAnswer
    ensures { result ≡ item_answer item next }
{
    match item {
        Ok(op) => ReadAnswer {
            end: 0,
            fault: 0,
            next,
            operation: op.into(),
        },
        Err(fault) => no_operation(0, u32::from(fault.number()), next),
    }
}

// The bytes of one operation by its code.
// Stays: the ten arms of decoder's read_operation again: a reader a kind was tried against it and is quicker (docs/notes/00-base-speed.md).
#[tactic(auto, using(decoder::proofs::Codes::kind_by_code), unfolding(decoder::specs::Front::decode, decoder::specs::Front::shape_of, decoder::specs::Front::judge))]
fn read_named(t: &[u8], next: usize) -> ReadAnswer
    ensures { result ≡ item_answer (decode t.now) next }
{
    match Code::try_from(decoder::code_of(t)) {
        Ok(Code::FormatError) => answer_item(decoder::read_format_error(t), next),
        Ok(Code::CanTransmit) => answer_item(decoder::read_can(t), next),
        Ok(Code::FdTransmit) => answer_item(decoder::read_fd(t), next),
        Ok(Code::XlTransmit) => answer_item(decoder::read_xl(t), next),
        Ok(Code::Confirm) => answer_item(decoder::read_confirm(t), next),
        Ok(Code::ArbitrationLost) => answer_item(decoder::read_arbitration_lost(t), next),
        Ok(Code::BusError) => answer_item(decoder::read_bus_error(t), next),
        Ok(Code::Configuration) => answer_item(decoder::read_configuration(t), next),
        Ok(Code::Status) => answer_item(decoder::read_status(t), next),
        Ok(Code::Wakeup) => answer_item(decoder::read_wakeup(t), next),
        Err(_) => answer_item(Err(Fault::UnknownCode), next),
    }
}

// Reads the operation at a position.
pub fn kf_read(buffer: &[u8], at: usize) -> ReadAnswer
    ensures { result ≡ read_answer at (read_at buffer.now at) }
{
    let Some(rest) = buffer.get(at..) else {
        return no_operation(1, 0, at);
    };
    if let Some(size) = decoder::whole_length(rest) {
        return read_named(&rest[..size], at + size);
    }
    match decoder::read_front(rest) {
        Some(Front { item, size }) => answer_item(item, at + size),
        None => no_operation(1, 0, at),
    }
}

// Where the data of an operation that ends at a position lie.
pub fn kf_data(buffer: &[u8], operation: FlatOperation, next: usize) -> PartAnswer
    ensures { result ≡ data_answer buffer.now (named operation) next }
{
    match operation.operation() {
        Some(op) => {
            let n = decoder::data(buffer, op, Cursor { at: next }).len();
            if n == 0 {
                return PartAnswer {
                    start: 0,
                    length: 0,
                };
            }
            PartAnswer {
                start: next - n,
                length: n,
            }
        }
        None => PartAnswer {
            start: 0,
            length: 0,
        },
    }
}

fn length_written(w: Result<usize, WriteError>) -> usize
    ensures { result ≡ length_written w }
{
    w.unwrap_or(0)
}

// Writes by the code.
// Stays: the ten arms of encoder's write again: building the operation first was tried and is slower (docs/notes/00-base-speed.md).
#[tactic(auto, using(crate::proofs::Tables::named_by))]
fn write_named(f: FlatOperation, payload: &[u8], buffer: &mut [u8]) -> Result<usize, WriteError>
    ensures answer { result ≡ answer_named (named f) (length payload.now) (length buffer.old) }
    ensures written { buffer.new ≡ buffer_after_write (named f) payload.now buffer.old }
{
    let Ok(code) = Code::try_from(f.code) else {
        return Err(WriteError::RuleBroken);
    };
    match code {
        Code::FormatError => encoder::write_format_error(f.length, payload, buffer),
        Code::CanTransmit => {
            encoder::write_can(f.id, f.first, f.second, f.length, payload, buffer)
        }
        Code::FdTransmit => encoder::write_fd(
            f.id, f.first, f.second, f.third, f.length, payload, buffer,
        ),
        Code::XlTransmit => encoder::write_xl(
            f.id, f.first, f.second, f.third, f.fourth, f.word, f.length, payload, buffer,
        ),
        Code::Confirm => encoder::write_confirm(f.id, payload, buffer),
        Code::ArbitrationLost => encoder::write_arbitration_lost(f.id, payload, buffer),
        Code::BusError => {
            encoder::write_bus_error(f.id, f.first, f.second, f.third, payload, buffer)
        }
        Code::Configuration => encoder::write_configuration(f.first, f.word, payload, buffer),
        Code::Status => encoder::write_status(f.first, payload, buffer),
        Code::Wakeup => encoder::write_wakeup(payload, buffer),
    }
}

// Writes an operation with its data to the front of a buffer.
pub fn kf_write(operation: FlatOperation, payload: &[u8], buffer: &mut [u8]) -> WriteAnswer
    ensures answer { result ≡ write_answer (named operation) (length payload.now) (length buffer.old) }
    ensures written { buffer.new ≡ buffer_after_write (named operation) payload.now buffer.old }
{
    let w = write_named(operation, payload, buffer);
    WriteAnswer {
        refusal: encoder::number_of(w) as usize,
        length: length_written(w),
    }
}

// The calls of the bus. They go over the pending slots once, in place, call the bus with that pass's key and what they need of the slots,
// and put back those that changed; a start sets all of them.
// Stays: a state and the lent memory are parameters of each, as C passes them.

pub fn kf_start(slots: &mut [Slot], payload: &[u8], queues: &[u8], count: u32) -> Answer
    ensures { left result slots.new payload.now queues.now ≡ leaves (start_in (held (new_state 0) slots.old payload.now queues.now) count) }
{
    let Ok(lent) = <&[Slot; 32]>::try_from(&*slots) else {
        return bus::no_start();
    };
    let c = bus::start(*lent, payload, queues, count);
    slots.copy_from_slice(&c.slots);
    outcome::answer_of(c.outcome, c.state)
}

pub fn kf_submit(
    state: State,
    slots: &mut [Slot],
    payload: &mut [u8],
    queues: &mut [u8],
    node: u32,
    buffer: &[u8],
) -> Answer
    ensures { left result slots.new payload.new queues.new ≡ leaves (submit_in (held state slots.old payload.old queues.old) node buffer.now) }
{
    let Ok(lent) = <&[Slot; 32]>::try_from(&*slots) else {
        return bus::wrong_memory(state);
    };
    // Read before the pass, which goes on while they are copied.
    let at = submission::first_slot(node);
    let four = lent_slots::block_at(lent, at);
    let key = lent_scan::scan(lent, state);
    let c = bus::submit(state, key, four, payload, queues, node, buffer);
    lent_scan::finish(slots, c)
}

pub fn kf_round(
    state: State,
    slots: &mut [Slot],
    payload: &mut [u8],
    queues: &mut [u8],
    injected: u32,
    code: u32,
    detector: u32,
) -> Answer
    ensures { left result slots.new payload.new queues.new ≡ leaves (round_in (held state slots.old payload.old queues.old) (injection_from injected code detector)) }
{
    let Ok(lent) = <&[Slot; 32]>::try_from(&*slots) else {
        return bus::wrong_memory(state);
    };
    // Read before the pass, which goes on while they are copied.
    let ids = lent_slots::ids(lent);
    let key = lent_scan::scan(lent, state);
    let at = scan::winner_block(key);
    let four = lent_slots::block_at(lent, at);
    let c = bus::round(
        state, key, four, ids, payload, queues, injected, code, detector,
    );
    lent_scan::finish(slots, c)
}

// The queue goes to the front of the caller's buffer.
pub fn kf_collect(
    state: State,
    slots: &[Slot],
    payload: &[u8],
    queues: &[u8],
    node: u32,
    buffer: &mut [u8],
) -> Answer
    ensures left { left result slots.now payload.now queues.now ≡ leaves (collect_in (held state slots.now payload.now queues.now) node (length buffer.old)) }
    ensures written { buffer.new ≡ buffer_after (collect_in (held state slots.now payload.now queues.now) node (length buffer.old)).reply buffer.old }
{
    let key = lent_scan::key(slots, state);
    bus::collect(state, slots.len(), key, payload, queues, node, buffer)
}
