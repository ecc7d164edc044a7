// Reading operations from a buffer: what stands at a position, and where the data of an operation lie.
#![tactic(auto, unfolding(crate::specs::Front::shape_of, crate::specs::Front::verdict, crate::specs::Front::judge))]

ghost use Rattle.std.specs.Prelude.{◌≡◌, not, ◌||◌, ◌+◌, ◌^◌, ◌<◌, length, get_or, eqb};
ghost use Rattle.operation.specs.Number.{number_at};
ghost use Rattle.operation.specs.Rules.{legal};
ghost use Rattle.decoder.specs.Front.{fault_number, format_error, can, fd, xl, confirm, arbitration_lost, bus_error, configuration, status, wakeup, setting_of, shape_of, too_short, verdict, judge, decode, whole_length, front};
ghost use Rattle.decoder.specs.Reading.{read_at, data_at};

use operation::{Code, ConfigurationKind, Operation};

// What is wrong with the bytes at a position.
#[derive(Clone, Copy, Debug, PartialEq, Eq)]
pub enum Fault {
    // Fewer than eight bytes are left.
    TooFewLeft = 1,
    // The length field is below 8 or past the end.
    BadLength = 2,
    UnknownCode = 3,
    // The length is not that of the kind.
    WrongLength = 4,
    // A content rule is broken.
    RuleBroken = 5,
}

impl Fault {
    // Stays: a cast with a name; u8::from(fault) would be no plainer (fault_number).
    pub fn number(self) -> u8
        ensures { result ≡ fault_number self }
    {
        self as u8
    }
}

// What stands at the front of some bytes, and how many of them it takes up.
#[derive(Clone, Copy)]
pub struct Front {
    pub item: Result<Operation, Fault>,
    pub size: usize,
}

// A position in a buffer.
#[derive(Clone, Copy)]
pub struct Cursor {
    pub at: usize,
}

// What reading at a cursor gives, with the moved cursor.
#[derive(Clone, Copy)]
pub struct Reading {
    pub item: Result<Operation, Fault>,
    pub next: Cursor,
}

// The byte at a position, and 0 past the end.
fn byte_at(t: &[u8], i: usize) -> u8
    ensures { result ≡ get_or t.now i 0 }
{
    t.get(i).copied().unwrap_or(0)
}

// Stays: two widths, a line each: from_le_bytes is a function of each type and of no trait.
fn u16_at(t: &[u8], i: usize) -> u16
    requires { i + 1 < 2 ^ 64 }
    ensures { result ≡ number_at 2 t.now i }
{
    u16::from_le_bytes([byte_at(t, i), byte_at(t, i + 1)])
}

fn u32_at(t: &[u8], i: usize) -> u32
    requires { i + 3 < 2 ^ 64 }
    ensures { result ≡ number_at 4 t.now i }
{
    u32::from_le_bytes([
        byte_at(t, i),
        byte_at(t, i + 1),
        byte_at(t, i + 2),
        byte_at(t, i + 3),
    ])
}

// The code that some bytes start with; bytes that are missing count as 0.
// Stays: no `TryFrom`, since it can not fail (number_at).
pub fn code_of(t: &[u8]) -> u32
    ensures { result ≡ number_at 4 t.now 0 }
{
    u32_at(t, 0)
}

// Fault 4 before fault 5.
fn give_verdict<T: Copy>(sized: bool, lawful: bool, read: T) -> Result<T, Fault>
    ensures { result ≡ verdict (not sized) lawful read }
{
    if !sized {
        return Err(Fault::WrongLength);
    }
    if !lawful {
        return Err(Fault::RuleBroken);
    }
    Ok(read)
}

// The bytes of one operation, a function a kind. Each asks for the length first: the fields are then read without a test.

#[tactic(auto, unfolding(crate::specs::Front::shape_of, crate::specs::Front::verdict, crate::specs::Front::judge, operation::specs::Rules::legal, operation::specs::Rules::rules, operation::specs::Rules::all_after))]
pub fn read_format_error(t: &[u8]) -> Result<Operation, Fault>
    ensures { result ≡ judge (length t.now) (shape_of format_error t.now) }
{
    let size = t.len();
    if size < 10 {
        return Err(Fault::WrongLength);
    }
    let n = u16_at(t, 8);
    give_verdict(size == 10 + n as usize, true, Operation::FormatError { n })
}

pub fn read_can(t: &[u8]) -> Result<Operation, Fault>
    ensures { result ≡ judge (length t.now) (shape_of can t.now) }
{
    let size = t.len();
    if size < 16 {
        return Err(Fault::WrongLength);
    }
    let id = u32_at(t, 8);
    let ide = byte_at(t, 12);
    let rtr = byte_at(t, 13);
    let dl = u16_at(t, 14);
    let lawful = operation::can_is_legal(id, ide, rtr, dl);
    give_verdict(
        size == 16 + dl as usize,
        lawful,
        Operation::CanTransmit { id, ide, rtr, dl },
    )
}

pub fn read_fd(t: &[u8]) -> Result<Operation, Fault>
    ensures { result ≡ judge (length t.now) (shape_of fd t.now) }
{
    let size = t.len();
    if size < 17 {
        return Err(Fault::WrongLength);
    }
    let id = u32_at(t, 8);
    let ide = byte_at(t, 12);
    let brs = byte_at(t, 13);
    let esi = byte_at(t, 14);
    let dl = u16_at(t, 15);
    let lawful = operation::fd_is_legal(id, ide, brs, esi, dl);
    give_verdict(
        size == 17 + dl as usize,
        lawful,
        Operation::FdTransmit {
            id,
            ide,
            brs,
            esi,
            dl,
        },
    )
}

pub fn read_xl(t: &[u8]) -> Result<Operation, Fault>
    ensures { result ≡ judge (length t.now) (shape_of xl t.now) }
{
    let size = t.len();
    if size < 22 {
        return Err(Fault::WrongLength);
    }
    let id = u32_at(t, 8);
    let ide = byte_at(t, 12);
    let sec = byte_at(t, 13);
    let sdt = byte_at(t, 14);
    let vcid = byte_at(t, 15);
    let af = u32_at(t, 16);
    let dl = u16_at(t, 20);
    let lawful = operation::xl_is_legal(id, ide, sec, sdt, vcid, af, dl);
    give_verdict(
        size == 22 + dl as usize,
        lawful,
        Operation::XlTransmit {
            id,
            ide,
            sec,
            sdt,
            vcid,
            af,
            dl,
        },
    )
}

// The ID of an operation that has no other field.
fn lone_id(t: &[u8]) -> Result<u32, Fault>
    ensures { result ≡ verdict (too_short (length t.now) 12 || not (eqb (length t.now) 12)) (legal (Operation.Confirm (number_at 4 t.now 8))) (number_at 4 t.now 8) }
{
    let size = t.len();
    if size < 12 {
        return Err(Fault::WrongLength);
    }
    let id = u32_at(t, 8);
    let lawful = operation::id_is_legal(id);
    give_verdict(size == 12, lawful, id)
}

pub fn read_confirm(t: &[u8]) -> Result<Operation, Fault>
    ensures { result ≡ judge (length t.now) (shape_of confirm t.now) }
{
    lone_id(t).map(|id| Operation::Confirm { id })
}

#[tactic(auto, unfolding(crate::specs::Front::shape_of, crate::specs::Front::verdict, crate::specs::Front::judge, operation::specs::Rules::legal, operation::specs::Rules::rules, operation::specs::Rules::all_after))]
pub fn read_arbitration_lost(t: &[u8]) -> Result<Operation, Fault>
    ensures { result ≡ judge (length t.now) (shape_of arbitration_lost t.now) }
{
    lone_id(t).map(|id| Operation::ArbitrationLost { id })
}

pub fn read_bus_error(t: &[u8]) -> Result<Operation, Fault>
    ensures { result ≡ judge (length t.now) (shape_of bus_error t.now) }
{
    let size = t.len();
    if size < 15 {
        return Err(Fault::WrongLength);
    }
    let id = u32_at(t, 8);
    let error_code = byte_at(t, 12);
    let error_flag = byte_at(t, 13);
    let is_sender = byte_at(t, 14);
    let lawful = operation::bus_error_is_legal(id, error_code, error_flag, is_sender);
    give_verdict(
        size == 15,
        lawful,
        Operation::BusError {
            id,
            error_code,
            error_flag,
            is_sender,
        },
    )
}

// What a Configuration carries: one byte for a behaviour, four for a baud rate.
fn setting_at(t: &[u8], kind: u8) -> u32
    ensures { result ≡ setting_of kind t.now }
{
    if kind == ConfigurationKind::ArbitrationLostBehavior as u8 {
        u32::from(byte_at(t, 9))
    } else {
        u32_at(t, 9)
    }
}

#[tactic(auto, using(operation::proofs::Tables::configuration_kind_is_ok), unfolding(crate::specs::Front::shape_of, crate::specs::Front::verdict, crate::specs::Front::judge))]
pub fn read_configuration(t: &[u8]) -> Result<Operation, Fault>
    ensures { result ≡ judge (length t.now) (shape_of configuration t.now) }
{
    let size = t.len();
    if size < 9 {
        return Err(Fault::WrongLength);
    }
    let kind = byte_at(t, 8);
    let value = setting_at(t, kind);
    let expected = operation::configuration_length(kind);
    let lawful = operation::configuration_is_legal(kind, value);
    let known = ConfigurationKind::try_from(kind).is_ok();
    give_verdict(
        known & (size == expected),
        lawful,
        Operation::Configuration { kind, value },
    )
}

pub fn read_status(t: &[u8]) -> Result<Operation, Fault>
    ensures { result ≡ judge (length t.now) (shape_of status t.now) }
{
    let size = t.len();
    if size < 9 {
        return Err(Fault::WrongLength);
    }
    let status = byte_at(t, 8);
    let lawful = operation::status_is_legal(status);
    give_verdict(size == 9, lawful, Operation::Status { status })
}

#[tactic(auto, unfolding(crate::specs::Front::shape_of, crate::specs::Front::verdict, crate::specs::Front::judge, operation::specs::Rules::legal, operation::specs::Rules::rules, operation::specs::Rules::all_after))]
pub fn read_wakeup(t: &[u8]) -> Result<Operation, Fault>
    ensures { result ≡ judge (length t.now) (shape_of wakeup t.now) }
{
    let size = t.len();
    if size < 8 {
        return Err(Fault::WrongLength);
    }
    give_verdict(size == 8, true, Operation::Wakeup)
}

// The bytes of one operation, by its code.
#[tactic(auto, using(crate::proofs::Codes::kind_by_code), unfolding(crate::specs::Front::decode, crate::specs::Front::shape_of, crate::specs::Front::judge))]
fn read_operation(t: &[u8]) -> Result<Operation, Fault>
    ensures { result ≡ decode t.now }
{
    match Code::try_from(code_of(t)) {
        Ok(Code::FormatError) => read_format_error(t),
        Ok(Code::CanTransmit) => read_can(t),
        Ok(Code::FdTransmit) => read_fd(t),
        Ok(Code::XlTransmit) => read_xl(t),
        Ok(Code::Confirm) => read_confirm(t),
        Ok(Code::ArbitrationLost) => read_arbitration_lost(t),
        Ok(Code::BusError) => read_bus_error(t),
        Ok(Code::Configuration) => read_configuration(t),
        Ok(Code::Status) => read_status(t),
        Ok(Code::Wakeup) => read_wakeup(t),
        Err(_) => Err(Fault::UnknownCode),
    }
}

// The length of the operation that the rest of a buffer starts with; none at the end, and where fault 1 or 2 stands there.
#[tactic(auto, unfolding(crate::specs::Front::whole_length))]
pub fn whole_length(s: &[u8]) -> Option<usize>
    ensures { result ≡ whole_length s.now }
{
    if s.len() < 8 {
        return None;
    }
    let stated = u32_at(s, 4) as usize;
    if stated < 8 {
        return None;
    }
    if s.len() < stated {
        return None;
    }
    Some(stated)
}

// What stands at the front of the rest of a buffer; none at the end.
pub fn read_front(s: &[u8]) -> Option<Front>
    ensures { result ≡ front s.now }
{
    if let Some(size) = whole_length(s) {
        let item = read_operation(&s[..size]);
        return Some(Front { item, size });
    }
    let size = s.len();
    if size == 0 {
        return None;
    }
    if size < 8 {
        return Some(Front {
            item: Err(Fault::TooFewLeft),
            size,
        });
    }
    Some(Front {
        item: Err(Fault::BadLength),
        size,
    })
}

impl Cursor {
    // Reads at the cursor; none at the end.
    pub fn read(self, s: &[u8]) -> Option<Reading>
        ensures { result ≡ read_at s.now self.at }
    {
        let front = read_front(s.get(self.at..)?)?;
        let next = Cursor {
            at: self.at + front.size,
        };
        Some(Reading {
            item: front.item,
            next,
        })
    }
}

// The data bytes of a Transmit or Format Error that ends at a cursor, as that part of the buffer. None of any other
// operation, and none where the operation does not fit in before the cursor.
pub fn data(s: &[u8], op: Operation, next: Cursor) -> &[u8]
    ensures { result.now ≡ data_at s.now op next.at }
{
    let end = next.at;
    let n = operation::data_length(op) as usize;
    if end < operation::head_length(op) + n {
        return b"";
    }
    s.get(end - n..end).unwrap_or(b"")
}
