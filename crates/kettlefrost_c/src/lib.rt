// The exported functions for C, C++, Rust and Python. Each calls the function of the same name and states its clauses again.
#![tactic(auto)]

ghost use Rattle.std.specs.Prelude.{◌≡◌, length};
ghost use Rattle.decoder.specs.Reading.{read_at};
ghost use Rattle.plain_bus.specs.Register.{new_register, enter, read};
ghost use Rattle.plain_bus.specs.Round.{injection_from};
ghost use Rattle.bus_state.specs.Memory.{held};
ghost use Rattle.bus_model.specs.Primitives.{new_state};
ghost use Rattle.bus_model.specs.Calls.{start_in, submit_in, round_in, collect_in, buffer_after};
ghost use Rattle.bus.specs.Left.{left, leaves};
ghost use Rattle.open_frames.specs.Record.{open_in, record_of, answered};
ghost use Rattle.kettlefrost.specs.Flat.{named};
ghost use Rattle.kettlefrost.specs.Calls.{read_answer, data_answer, write_answer, buffer_after_write};
ghost use Rattle.kettlefrost.specs.Layout.{layout_number};

use bus_state::State;
use kettlefrost::{FlatOperation, PartAnswer, ReadAnswer, WriteAnswer};
use open_frames::{Register, RegisterAnswer};
use outcome::Answer;
use slots::Slot;

// Reads the operation at a position.
#[unsafe(no_mangle)]
pub extern "C" fn kf_read(buffer: &[u8], at: usize) -> ReadAnswer
    ensures { result ≡ read_answer at (read_at buffer.now at) }
{
    kettlefrost::kf_read(buffer, at)
}

// Where the data of an operation that ends at a position lie.
#[unsafe(no_mangle)]
pub extern "C" fn kf_data(buffer: &[u8], operation: FlatOperation, next: usize) -> PartAnswer
    ensures { result ≡ data_answer buffer.now (named operation) next }
{
    kettlefrost::kf_data(buffer, operation, next)
}

// Writes an operation with its data to the front of a buffer.
#[unsafe(no_mangle)]
pub extern "C" fn kf_write(
    operation: FlatOperation,
    payload: &[u8],
    buffer: &mut [u8],
) -> WriteAnswer
    ensures answer { result ≡ write_answer (named operation) (length payload.now) (length buffer.old) }
    ensures written { buffer.new ≡ buffer_after_write (named operation) payload.now buffer.old }
{
    kettlefrost::kf_write(operation, payload, buffer)
}

#[unsafe(no_mangle)]
pub extern "C" fn kf_start(slots: &mut [Slot], payload: &[u8], queues: &[u8], count: u32) -> Answer
    ensures { left result slots.new payload.now queues.now ≡ leaves (start_in (held (new_state 0) slots.old payload.now queues.now) count) }
{
    kettlefrost::kf_start(slots, payload, queues, count)
}

#[unsafe(no_mangle)]
pub extern "C" fn kf_submit(
    state: State,
    slots: &mut [Slot],
    payload: &mut [u8],
    queues: &mut [u8],
    node: u32,
    buffer: &[u8],
) -> Answer
    ensures { left result slots.new payload.new queues.new ≡ leaves (submit_in (held state slots.old payload.old queues.old) node buffer.now) }
{
    kettlefrost::kf_submit(state, slots, payload, queues, node, buffer)
}

#[unsafe(no_mangle)]
pub extern "C" fn kf_round(
    state: State,
    slots: &mut [Slot],
    payload: &mut [u8],
    queues: &mut [u8],
    injected: u32,
    code: u32,
    detector: u32,
) -> Answer
    ensures { left result slots.new payload.new queues.new ≡ leaves (round_in (held state slots.old payload.old queues.old) (injection_from injected code detector)) }
{
    kettlefrost::kf_round(state, slots, payload, queues, injected, code, detector)
}

// The queue goes to the front of the caller's buffer.
#[unsafe(no_mangle)]
pub extern "C" fn kf_collect(
    state: State,
    slots: &[Slot],
    payload: &[u8],
    queues: &[u8],
    node: u32,
    buffer: &mut [u8],
) -> Answer
    ensures left { left result slots.now payload.now queues.now ≡ leaves (collect_in (held state slots.now payload.now queues.now) node (length buffer.old)) }
    ensures written { buffer.new ≡ buffer_after (collect_in (held state slots.now payload.now queues.now) node (length buffer.old)).reply buffer.old }
{
    kettlefrost::kf_collect(state, slots, payload, queues, node, buffer)
}

#[unsafe(no_mangle)]
pub extern "C" fn kf_register_new() -> Register
    ensures { result ≡ record_of new_register }
{
    kettlefrost::register::kf_register_new()
}

// Enters a buffer whose submit was accepted.
#[unsafe(no_mangle)]
pub extern "C" fn kf_register_enter(register: Register, buffer: &[u8]) -> RegisterAnswer
    ensures { result ≡ answered register (enter (open_in register) buffer.now) }
{
    kettlefrost::register::kf_register_enter(register, buffer)
}

// Reads the bytes that an accepted collect gave.
#[unsafe(no_mangle)]
pub extern "C" fn kf_register_read(register: Register, buffer: &[u8]) -> RegisterAnswer
    ensures { result ≡ answered register (read (open_in register) buffer.now) }
{
    kettlefrost::register::kf_register_read(register, buffer)
}

#[unsafe(no_mangle)]
pub extern "C" fn kf_layout() -> u64
    ensures { result ≡ layout_number }
{
    kettlefrost::layout::kf_layout()
}
