// Writing one operation to the front of a buffer. The answer is decided before the first byte is stored.
#![tactic(auto)]

ghost use Rattle.std.specs.Prelude.{◌≡◌, ◌++◌, ◌+◌, ◌≤◌, length, IfOk};
ghost use Rattle.operation.specs.Number.{little_endian};
ghost use Rattle.operation.specs.Rules.{legal};
ghost use Rattle.operation.specs.Tables.{code_number};
ghost use Rattle.encoder.specs.Writing.{written_number, decision, write_outcome, buffer_written, written_of};
ghost use Rattle.buffers.specs.Parts.{over};

use buffers::{put, put_number};
use operation::{Code, ConfigurationKind, Operation};

// Why an operation is not written: the number of each refusal.
#[derive(Clone, Copy, Debug, PartialEq, Eq)]
pub enum WriteError {
    RuleBroken = 7,
    BufferTooSmall = 11,
}

// The number of the answer: 0 where the operation was written.
// Stays: no `From`, since Result and u8 are both of std (written_number).
pub fn number_of(w: Result<usize, WriteError>) -> u8
    ensures { result ≡ written_number w }
{
    match w {
        Ok(_) => 0,
        Err(refusal) => refusal as u8,
    }
}

// What a write answers, by whether the operation meets its rules, the lengths of its header and of its data as it says them,
// the data's length, and the buffer's.
#[tactic(auto, unfolding(crate::specs::Writing::decision))]
fn decide(
    lawful: bool,
    head: usize,
    said: u16,
    given: usize,
    room: usize,
) -> Result<usize, WriteError>
    requires { head ≤ 22 }
    ensures value { result ≡ decision lawful head said given room }
    ensures accepted { IfOk result (λ n. (n ≡ head + said) × (n ≤ room) × (given ≡ said)) }
{
    let size = head + usize::from(said);
    if !lawful | (given != usize::from(said)) {
        return Err(WriteError::RuleBroken);
    }
    if room < size {
        return Err(WriteError::BufferTooSmall);
    }
    Ok(size)
}

// The first eight bytes.
fn put_start(buffer: &mut [u8], code: Code, size: u32)
    requires { 8 ≤ length buffer.old }
    ensures { buffer.new ≡ over buffer.old 0 (little_endian 4 (code_number code) ++ little_endian 4 size) }
{
    put_number::<4>(buffer, 0, u32::from(code));
    put_number::<4>(buffer, 4, size);
}

// Writing one kind: the answer, then the header and the data behind it. A caller that has the kind needs no `Operation`.
// Stays: ten public functions, which docs/READING.md names; what is alike in them is `decide`, `put_start` and `put`.

pub fn write_format_error(n: u16, payload: &[u8], buffer: &mut [u8]) -> Result<usize, WriteError>
    ensures answer { result ≡ write_outcome (Operation.FormatError n) (length payload.now) (length buffer.old) }
    ensures written { buffer.new ≡ written_of (Operation.FormatError n) payload.now buffer.old }
{
    let size = decide(true, 10, n, payload.len(), buffer.len())?;
    put_start(buffer, Code::FormatError, size as u32);
    put_number::<2>(buffer, 8, u32::from(n));
    put(buffer, 10, payload);
    Ok(size)
}

pub fn write_can(
    id: u32,
    ide: u8,
    rtr: u8,
    dl: u16,
    payload: &[u8],
    buffer: &mut [u8],
) -> Result<usize, WriteError>
    ensures answer { result ≡ write_outcome (Operation.CanTransmit id ide rtr dl) (length payload.now) (length buffer.old) }
    ensures written { buffer.new ≡ written_of (Operation.CanTransmit id ide rtr dl) payload.now buffer.old }
{
    let lawful = operation::can_is_legal(id, ide, rtr, dl);
    let size = decide(lawful, 16, dl, payload.len(), buffer.len())?;
    put_start(buffer, Code::CanTransmit, size as u32);
    put_number::<4>(buffer, 8, id);
    put(buffer, 12, &[ide, rtr]);
    put_number::<2>(buffer, 14, u32::from(dl));
    put(buffer, 16, payload);
    Ok(size)
}

pub fn write_fd(
    id: u32,
    ide: u8,
    brs: u8,
    esi: u8,
    dl: u16,
    payload: &[u8],
    buffer: &mut [u8],
) -> Result<usize, WriteError>
    ensures answer { result ≡ write_outcome (Operation.FdTransmit id ide brs esi dl) (length payload.now) (length buffer.old) }
    ensures written { buffer.new ≡ written_of (Operation.FdTransmit id ide brs esi dl) payload.now buffer.old }
{
    let lawful = operation::fd_is_legal(id, ide, brs, esi, dl);
    let size = decide(lawful, 17, dl, payload.len(), buffer.len())?;
    put_start(buffer, Code::FdTransmit, size as u32);
    put_number::<4>(buffer, 8, id);
    put(buffer, 12, &[ide, brs, esi]);
    put_number::<2>(buffer, 15, u32::from(dl));
    put(buffer, 17, payload);
    Ok(size)
}

pub fn write_xl(
    id: u32,
    ide: u8,
    sec: u8,
    sdt: u8,
    vcid: u8,
    af: u32,
    dl: u16,
    payload: &[u8],
    buffer: &mut [u8],
) -> Result<usize, WriteError>
    ensures answer { result ≡ write_outcome (Operation.XlTransmit id ide sec sdt vcid af dl) (length payload.now) (length buffer.old) }
    ensures written { buffer.new ≡ written_of (Operation.XlTransmit id ide sec sdt vcid af dl) payload.now buffer.old }
{
    let lawful = operation::xl_is_legal(id, ide, sec, sdt, vcid, af, dl);
    let size = decide(lawful, 22, dl, payload.len(), buffer.len())?;
    put_start(buffer, Code::XlTransmit, size as u32);
    put_number::<4>(buffer, 8, id);
    put(buffer, 12, &[ide, sec, sdt, vcid]);
    put_number::<4>(buffer, 16, af);
    put_number::<2>(buffer, 20, u32::from(dl));
    put(buffer, 22, payload);
    Ok(size)
}

// A Confirm or an Arbitration Lost, by its code.
fn write_id(code: Code, id: u32, payload: &[u8], buffer: &mut [u8]) -> Result<usize, WriteError>
    ensures answer { result ≡ decision (legal (Operation.Confirm id)) 12 0 (length payload.now) (length buffer.old) }
    ensures written { buffer.new ≡ buffer_written result (little_endian 4 (code_number code) ++ little_endian 4 12 ++ little_endian 4 id) buffer.old }
{
    let size = decide(
        operation::id_is_legal(id),
        12,
        0,
        payload.len(),
        buffer.len(),
    )?;
    put_start(buffer, code, size as u32);
    put_number::<4>(buffer, 8, id);
    Ok(size)
}

pub fn write_confirm(id: u32, payload: &[u8], buffer: &mut [u8]) -> Result<usize, WriteError>
    ensures answer { result ≡ write_outcome (Operation.Confirm id) (length payload.now) (length buffer.old) }
    ensures written { buffer.new ≡ written_of (Operation.Confirm id) payload.now buffer.old }
{
    write_id(Code::Confirm, id, payload, buffer)
}

pub fn write_arbitration_lost(
    id: u32,
    payload: &[u8],
    buffer: &mut [u8],
) -> Result<usize, WriteError>
    ensures answer { result ≡ write_outcome (Operation.ArbitrationLost id) (length payload.now) (length buffer.old) }
    ensures written { buffer.new ≡ written_of (Operation.ArbitrationLost id) payload.now buffer.old }
{
    write_id(Code::ArbitrationLost, id, payload, buffer)
}

pub fn write_bus_error(
    id: u32,
    code: u8,
    flag: u8,
    sender: u8,
    payload: &[u8],
    buffer: &mut [u8],
) -> Result<usize, WriteError>
    ensures answer { result ≡ write_outcome (Operation.BusError id code flag sender) (length payload.now) (length buffer.old) }
    ensures written { buffer.new ≡ written_of (Operation.BusError id code flag sender) payload.now buffer.old }
{
    let lawful = operation::bus_error_is_legal(id, code, flag, sender);
    let size = decide(lawful, 15, 0, payload.len(), buffer.len())?;
    put_start(buffer, Code::BusError, size as u32);
    put_number::<4>(buffer, 8, id);
    put(buffer, 12, &[code, flag, sender]);
    Ok(size)
}

pub fn write_status(status: u8, payload: &[u8], buffer: &mut [u8]) -> Result<usize, WriteError>
    ensures answer { result ≡ write_outcome (Operation.Status status) (length payload.now) (length buffer.old) }
    ensures written { buffer.new ≡ written_of (Operation.Status status) payload.now buffer.old }
{
    let lawful = operation::status_is_legal(status);
    let size = decide(lawful, 9, 0, payload.len(), buffer.len())?;
    put_start(buffer, Code::Status, size as u32);
    put(buffer, 8, &[status]);
    Ok(size)
}

pub fn write_configuration(
    kind: u8,
    value: u32,
    payload: &[u8],
    buffer: &mut [u8],
) -> Result<usize, WriteError>
    ensures answer { result ≡ write_outcome (Operation.Configuration kind value) (length payload.now) (length buffer.old) }
    ensures written { buffer.new ≡ written_of (Operation.Configuration kind value) payload.now buffer.old }
{
    let lawful = operation::configuration_is_legal(kind, value);
    let head = operation::configuration_length(kind);
    let size = decide(lawful, head, 0, payload.len(), buffer.len())?;
    put_start(buffer, Code::Configuration, size as u32);
    put(buffer, 8, &[kind]);
    if kind == ConfigurationKind::ArbitrationLostBehavior as u8 {
        put_number::<1>(buffer, 9, value);
        return Ok(size);
    }
    put_number::<4>(buffer, 9, value);
    Ok(size)
}

pub fn write_wakeup(payload: &[u8], buffer: &mut [u8]) -> Result<usize, WriteError>
    ensures answer { result ≡ write_outcome Operation.Wakeup (length payload.now) (length buffer.old) }
    ensures written { buffer.new ≡ written_of Operation.Wakeup payload.now buffer.old }
{
    let size = decide(true, 8, 0, payload.len(), buffer.len())?;
    put_start(buffer, Code::Wakeup, size as u32);
    Ok(size)
}

// Writes an operation with its data to the front of a buffer. A refusal changes nothing.
pub fn write(op: Operation, payload: &[u8], buffer: &mut [u8]) -> Result<usize, WriteError>
    ensures answer { result ≡ write_outcome op (length payload.now) (length buffer.old) }
    ensures written { buffer.new ≡ written_of op payload.now buffer.old }
{
    match op {
        Operation::FormatError { n } => write_format_error(n, payload, buffer),
        Operation::CanTransmit { id, ide, rtr, dl } => write_can(id, ide, rtr, dl, payload, buffer),
        Operation::FdTransmit {
            id,
            ide,
            brs,
            esi,
            dl,
        } => write_fd(id, ide, brs, esi, dl, payload, buffer),
        Operation::XlTransmit {
            id,
            ide,
            sec,
            sdt,
            vcid,
            af,
            dl,
        } => write_xl(id, ide, sec, sdt, vcid, af, dl, payload, buffer),
        Operation::Confirm { id } => write_confirm(id, payload, buffer),
        Operation::ArbitrationLost { id } => write_arbitration_lost(id, payload, buffer),
        Operation::BusError {
            id,
            error_code,
            error_flag,
            is_sender,
        } => write_bus_error(id, error_code, error_flag, is_sender, payload, buffer),
        Operation::Configuration { kind, value } => write_configuration(
            kind, value, payload, buffer,
        ),
        Operation::Status { status } => write_status(status, payload, buffer),
        Operation::Wakeup => write_wakeup(payload, buffer),
    }
}
