// The pending slot (01: a place) by value.
#![tactic(auto)]

ghost use Rattle.std.specs.Prelude.{◌≡◌};
ghost use Rattle.operation.specs.Kinds.{id_of};
ghost use Rattle.slots.specs.Slots.{free_slot, content_of, held_in, legal_content};
ghost use Rattle.slots.specs.Blocks.{slot_of};

use operation::{Code, Operation};

// What a pending frame needs besides its data: its sender, the round at which it was accepted, and the Transmit. kind is the
// code of the Transmit, and any other number in a slot that holds none; first to fourth are the one-byte fields in their order.
// Stays: kind is a number, which may be any, since C hands slots over (kf_submit).
#[repr(C)]
#[derive(Clone, Copy)]
pub struct Slot {
    pub accepted: u32,
    pub id: u32,
    pub af: u32,
    pub length: u16,
    pub kind: u8,
    pub owner: u8,
    pub first: u8,
    pub second: u8,
    pub third: u8,
    pub fourth: u8,
}

// A slot that holds nothing.
pub fn free() -> Slot
    ensures { result ≡ free_slot }
{
    Slot {
        accepted: 0,
        id: 0,
        af: 0,
        length: 0,
        kind: 0,
        owner: 0,
        first: 0,
        second: 0,
        third: 0,
        fourth: 0,
    }
}

// The Transmit that a slot holds.
// Stays: a free slot is no error, so that `TryFrom` would be no plainer than an Option (content_of).
#[tactic(auto, unfolding(crate::specs::Slots::content_of))]
pub fn content_of(s: Slot) -> Option<Operation>
    ensures { result ≡ content_of s }
{
    if s.kind == Code::CanTransmit as u8 {
        Some(Operation::CanTransmit {
            id: s.id,
            ide: s.first,
            rtr: s.second,
            dl: s.length,
        })
    } else if s.kind == Code::FdTransmit as u8 {
        Some(Operation::FdTransmit {
            id: s.id,
            ide: s.first,
            brs: s.second,
            esi: s.third,
            dl: s.length,
        })
    } else if s.kind == Code::XlTransmit as u8 {
        Some(Operation::XlTransmit {
            id: s.id,
            ide: s.first,
            sec: s.second,
            sdt: s.third,
            vcid: s.fourth,
            af: s.af,
            dl: s.length,
        })
    } else {
        None
    }
}

// The Transmit that a slot holds; Wakeup for a free one.
pub fn held_in(s: Slot) -> Operation
    ensures { result ≡ held_in (content_of s) }
{
    content_of(s).unwrap_or(Operation::Wakeup)
}

// The ID of the Transmit that a slot holds, and 0 for a free one.
// Stays: a part of the slot, and 0 as the definition has it (id_of).
#[tactic(auto, unfolding(crate::specs::Slots::content_of))]
pub fn id_of(s: Slot) -> u32
    ensures { result ≡ id_of (held_in (content_of s)) }
{
    if (s.kind == Code::CanTransmit as u8)
        | (s.kind == Code::FdTransmit as u8)
        | (s.kind == Code::XlTransmit as u8)
    {
        s.id
    } else {
        0
    }
}

// The slot that holds a Transmit; a free one for any other operation.
// Stays: an operation, its owner and a round make it, and `From` takes one value (slot_of).
#[tactic(auto, unfolding(crate::specs::Blocks::slot_of))]
pub fn slot_of(op: Operation, owner: u8, accepted: u32) -> Slot
    ensures { result ≡ slot_of op owner accepted }
{
    match op {
        Operation::CanTransmit { id, ide, rtr, dl } => Slot {
            accepted,
            id,
            length: dl,
            kind: Code::CanTransmit as u8,
            owner,
            first: ide,
            second: rtr,
            ..free()
        },
        Operation::FdTransmit {
            id,
            ide,
            brs,
            esi,
            dl,
        } => Slot {
            accepted,
            id,
            length: dl,
            kind: Code::FdTransmit as u8,
            owner,
            first: ide,
            second: brs,
            third: esi,
            ..free()
        },
        Operation::XlTransmit {
            id,
            ide,
            sec,
            sdt,
            vcid,
            af,
            dl,
        } => Slot {
            accepted,
            id,
            af,
            length: dl,
            kind: Code::XlTransmit as u8,
            owner,
            first: ide,
            second: sec,
            third: sdt,
            fourth: vcid,
        },
        _ => free(),
    }
}

// Whether a slot holds a frame that meets the content rules. A classic frame first: it then needs no choice among the kinds.
#[tactic(auto, unfolding(crate::specs::Slots::content_of))]
pub fn is_legal(s: Slot) -> bool
    ensures { result ≡ legal_content (content_of s) }
{
    if s.kind == Code::CanTransmit as u8 {
        operation::can_is_legal(s.id, s.first, s.second, s.length)
    } else if s.kind == Code::FdTransmit as u8 {
        operation::fd_is_legal(s.id, s.first, s.second, s.third, s.length)
    } else if s.kind == Code::XlTransmit as u8 {
        operation::xl_is_legal(s.id, s.first, s.second, s.third, s.fourth, s.af, s.length)
    } else {
        false
    }
}
