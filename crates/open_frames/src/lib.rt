// The register that a node keeps of its open frames (01: the book): new, enter a submitted buffer, read a collected one.
#![tactic(auto)]

ghost use Rattle.std.specs.Prelude.{◌≡◌, ◌==◌, leb, List, ℕ};
ghost use Rattle.std.specs.List.{list_all, position};
ghost use Rattle.operation.specs.Rules.{max_extended_id};
ghost use Rattle.decoder.specs.Stream.{Item, operation, items_of};
ghost use Rattle.plain_bus.specs.Register.{Update, new_register, valid_register, updated, if_valid, updates};
ghost use Rattle.plain_bus.specs.Register.{open_id, note_status, enter_item, enter, close_id, read_item, read};
ghost use Rattle.plain_bus.specs.Register as plain;
ghost use Rattle.open_frames.specs.Record.{open_in, record_of, answered};
ghost use Rattle.open_frames.specs.Steps.{update_of, opened_from, IsStep, answer_of};

use arrayvec::ArrayVec;
use decoder::{Cursor, Reading};
use operation::{NodeStatus, Operation};
use std::marker::Model;

// The most open IDs.
pub const MAX_OPEN: u32 = 345;

const ROOM: usize = MAX_OPEN as usize;

// The first count of ids are the open ones, oldest first; off is not 0 where the node is Bus-Off.
// Stays: the C interface hands a register over by its fields, which may hold any numbers (kf_register_enter).
#[repr(C)]
#[derive(Clone, Copy)]
pub struct Register {
    pub ids: [u32; ROOM],
    pub count: u32,
    pub off: u32,
}

// Stays: the C interface has a number beside the register (kf_register_enter).
#[repr(C)]
#[derive(Clone, Copy)]
pub struct RegisterAnswer {
    pub number: u32,
    pub register: Register,
}

// Why a call on a register is refused, by the numbers of 01.
#[derive(Clone, Copy, Debug, PartialEq, Eq)]
enum Refusal {
    Invalid = 3,
    Full = 12,
    Differs = 13,
}

// The register that a call works on. Clauses see it as the plain register: the open IDs, and whether the node is Bus-Off.
#[derive(Drop)]
struct OpenFrames {
    ids: ArrayVec<u32, ROOM>,
    off: bool,
}

impl Model for OpenFrames {
    ghost use Rattle.plain_bus.specs.Register.{Register};

    ghost Value = { Register };

    ghost view = { λ r. record { opened = r.ids.items; off = r.off } };
}

impl OpenFrames {
    // A Transmit adds its ID at the end, unless Bus-Off.
    #[tactic(auto, unfolding(plain_bus::specs::Register::open_id))]
    fn open(&mut self, id: u32) -> Result<(), Refusal>
        ensures { update_of result self.new ≡ open_id self.old id }
    {
        if self.off {
            return Ok(());
        }
        if self.ids.is_full() {
            return Err(Refusal::Full);
        }
        self.ids.push(id);
        Ok(())
    }

    // Status Bus-Off closes all.
    #[tactic(auto, unfolding(plain_bus::specs::Register::note_status, plain_bus::specs::Register::with_off))]
    fn note_status(&mut self, status: u8)
        ensures { self.new ≡ note_status self.old status }
    {
        self.off = status == NodeStatus::BusOff as u8;
        if self.off {
            self.ids.clear();
        }
    }

    // Where the first equal ID is.
    fn place_of(&self, id: u32) -> Option<usize>
        ensures { result ≡ position (λ x. x == id) self.now.opened }
    {
        self.ids.as_slice().iter().position(|&x| x == id)
    }

    // Takes the first equal ID out.
    #[tactic(auto, using(crate::proofs::Opened::closing))]
    fn close(&mut self, id: u32) -> Result<(), Refusal>
        ensures { update_of result self.new ≡ close_id self.old id }
    {
        let Some(place) = self.place_of(id) else {
            return Err(Refusal::Differs);
        };
        self.ids.remove(place);
        Ok(())
    }

    #[tactic(auto, unfolding(plain_bus::specs::Register::enter_item))]
    fn enter(&mut self, op: Operation) -> Result<(), Refusal>
        ensures { (bytes : List ℕ) → update_of result self.new ≡ enter_item self.old (operation op bytes) }
    {
        match op {
            Operation::CanTransmit { id, .. }
            | Operation::FdTransmit { id, .. }
            | Operation::XlTransmit { id, .. } => self.open(id),
            Operation::Status { status } => {
                self.note_status(status);
                Ok(())
            }
            _ => Ok(()),
        }
    }

    #[tactic(auto, unfolding(plain_bus::specs::Register::read_item))]
    fn read(&mut self, op: Operation) -> Result<(), Refusal>
        ensures { (bytes : List ℕ) → update_of result self.new ≡ read_item self.old (operation op bytes) }
    {
        match op {
            Operation::Confirm { id }
            | Operation::ArbitrationLost { id }
            | Operation::BusError {
                id,
                is_sender: 1,
                ..
            } => self.close(id),
            _ => Ok(()),
        }
    }

    // A step for each operation of a buffer, until one is refused. A fault changes nothing.
    fn apply_all<F: Fn(&mut OpenFrames, Operation) -> Result<(), Refusal>>(
        &mut self,
        step: F,
        buffer: &[u8],
    ) -> Result<(), Refusal>
        requires { F.IsAlwaysCallable step }
        ensures { (g : plain.Register → Item → Update) → IsStep g (F.post step)
            → update_of result self.new ≡ updates g (items_of buffer.now) (updated self.old) }
    {
        let mut cursor = Cursor { at: 0 };
        while let Some(Reading { item, next }) = cursor.read(buffer) {
            if let Ok(op) = item {
                step(self, op)?;
            }
            cursor = next;
        }
        Ok(())
    }
}

impl TryFrom<Register> for OpenFrames {
    type Error = Refusal;

    ghost try_from_gives = { λ register result. result ≡ opened_from register };

    #[tactic(auto, using(crate::proofs::Opened::made))]
    fn try_from(register: Register) -> Result<OpenFrames, Refusal> {
        if !is_valid(register) {
            return Err(Refusal::Invalid);
        }
        let Register { ids, count, off } = register;
        let mut ids = ArrayVec::from(ids);
        ids.truncate(count as usize);
        Ok(OpenFrames { ids, off: off != 0 })
    }
}

impl From<OpenFrames> for Register {
    ghost from_gives = { λ frames register. register ≡ record_of frames };

    // 0 past the open IDs.
    fn from(frames: OpenFrames) -> Register {
        let count = frames.ids.len();
        let mut ids = [0; ROOM];
        ids[..count].copy_from_slice(frames.ids.as_slice());
        Register {
            ids,
            count: count as u32,
            off: frames.off as u32,
        }
    }
}

#[tactic(auto, unfolding(crate::specs::Record::record_of))]
pub fn new_register() -> Register
    ensures { result ≡ record_of new_register }
{
    Register {
        ids: [0; ROOM],
        count: 0,
        off: 0,
    }
}

// Whether all IDs fit 29 bits. The loop goes on to its end, so that the object code takes several IDs at a time; `all` takes each alone.
#[tactic(auto, using(std::proofs::lemmas::List::Folds::list_all_more))]
fn all_fit(ids: &[u32]) -> bool
    ensures { result ≡ list_all (λ x. leb x max_extended_id) ids.now }
{
    let mut fit = true;
    for &id in ids {
        fit &= id <= operation::MAX_EXTENDED_ID;
    }
    fit
}

// Whether a register is valid (01: sound).
#[tactic(auto, using(crate::proofs::Opened::valid))]
pub fn is_valid(register: Register) -> bool
    ensures { result ≡ valid_register (open_in register) }
{
    let Some(ids) = register.ids.get(..register.count as usize) else {
        return false;
    };
    all_fit(ids) && (register.off == 0 || ids.is_empty())
}

// The register after the steps of a buffer; one that is not valid is refused before all else.
fn apply<F: Fn(&mut OpenFrames, Operation) -> Result<(), Refusal>>(
    register: Register,
    step: F,
    buffer: &[u8],
) -> Result<Register, Refusal>
    requires { F.IsAlwaysCallable step }
    ensures { (g : plain.Register → Item → Update) → IsStep g (F.post step)
        → answer_of register result
        ≡ answered register (if_valid (open_in register) (updates g (items_of buffer.now) (updated (open_in register)))) }
{
    let mut frames = OpenFrames::try_from(register)?;
    frames.apply_all(step, buffer)?;
    Ok(Register::from(frames))
}

// A refusal hands the register back as it was.
fn answer(register: Register, after: Result<Register, Refusal>) -> RegisterAnswer
    ensures { result ≡ answer_of register after }
{
    match after {
        Ok(register) => RegisterAnswer {
            number: 0,
            register,
        },
        Err(refusal) => RegisterAnswer {
            number: refusal as u32,
            register,
        },
    }
}

// Enters a buffer that was submitted.
#[tactic(auto, unfolding(plain_bus::specs::Register::enter, plain_bus::specs::Register::enter_item))]
pub fn enter(register: Register, buffer: &[u8]) -> RegisterAnswer
    ensures { result ≡ answered register (enter (open_in register) buffer.now) }
{
    answer(register, apply(register, OpenFrames::enter, buffer))
}

// Reads a buffer that was collected.
#[tactic(auto, using(crate::proofs::Turns::read_fault), unfolding(plain_bus::specs::Register::read))]
pub fn read(register: Register, buffer: &[u8]) -> RegisterAnswer
    ensures { result ≡ answered register (read (open_in register) buffer.now) }
{
    answer(register, apply(register, OpenFrames::read, buffer))
}
