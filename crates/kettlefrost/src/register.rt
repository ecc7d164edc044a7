// The register of open frames, as public calls.
ghost use Rattle.std.specs.Prelude.{◌≡◌};
ghost use Rattle.plain_bus.specs.Register.{new_register, enter, read};
ghost use Rattle.open_frames.specs.Record.{open_in, record_of, answered};

use open_frames::{Register, RegisterAnswer};

pub fn kf_register_new() -> Register
    ensures { result ≡ record_of new_register }
{
    open_frames::new_register()
}

// Enters a buffer whose submit was accepted.
pub fn kf_register_enter(register: Register, buffer: &[u8]) -> RegisterAnswer
    ensures { result ≡ answered register (enter (open_in register) buffer.now) }
{
    open_frames::enter(register, buffer)
}

// Reads the bytes that an accepted collect gave.
pub fn kf_register_read(register: Register, buffer: &[u8]) -> RegisterAnswer
    ensures { result ≡ answered register (read (open_in register) buffer.now) }
{
    open_frames::read(register, buffer)
}
