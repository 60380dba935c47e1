// The payload that a command is written as, composed from the command: document 01, "Frame" (payloads). The module gives it back in its
// responses. An accepted command's is exactly the payload that it was parsed from.
#![tactic(auto)]

mod compose;

ghost use Rattle.std.specs.Prelude.{◌≡◌, ℕ, ◌≤◌, List};
ghost use Rattle.cdi_command.specs.Payload.{command_payload, payload_max};
ghost use Rattle.cdi_payload.specs.Carried.{carried};

use cdi_command::{Command, ERASE_ALL, PAYLOAD_MAX, PROGRAM, READ, READ_NV, SET_DEFAULT, WRITE};
use std::marker::Model;

// A command's payload. Its bytes come first, and the bytes after them are free. It is an array and a length, since nothing is allocated here. A contract sees
// both, so that a payload can be copied; its own bytes are `carried`.
#[derive(Clone, Copy)]
pub struct Payload {
    bytes: [u8; PAYLOAD_MAX],
    length: usize,
}

impl Model for Payload {
    ghost Value = { ℕ × List ℕ };

    ghost view = { λ p. (p.length, p.bytes) };

    ghost inverse = { λ v. record { bytes = v.1; length = v.0 } };

    ghost invariant = { λ p. p.length ≤ payload_max };
}

impl Payload {
    // The payload's own bytes.
    pub fn as_slice(&self) -> &[u8]
        ensures { result.now ≡ carried self.now }
    {
        &self.bytes[..self.length]
    }
}

// The payload that a command is written as.
pub fn payload_of(command: Command) -> Payload
    ensures { carried result ≡ command_payload command }
{
    match command {
        Command::Read(item) => compose::read(READ, item),
        Command::ReadIndexed(item, index) => compose::read_row(READ, item, index),
        Command::ReadNv(item) => compose::read(READ_NV, item),
        Command::ReadNvIndexed(item, index) => compose::read_row(READ_NV, item, index),
        Command::Write(item, value) => compose::store(WRITE, item, value),
        Command::WriteIndexed(item, index, value) => compose::store_row(WRITE, item, index, value),
        Command::Program(item, value) => compose::store(PROGRAM, item, value),
        Command::ProgramIndexed(item, index, value) => compose::store_row(
            PROGRAM, item, index, value,
        ),
        Command::SetDefault => compose::bare(SET_DEFAULT),
        Command::EraseAll => compose::bare(ERASE_ALL),
    }
}
