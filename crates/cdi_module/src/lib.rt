// The module: a command block executed on a state, and a power-up. Document 01, "What the unit serves". The sequence theorem is
// about these two entries.
#![tactic(auto)]

mod response;

ghost use Rattle.std.specs.Prelude.{◌≡◌, [], ◌≤◌, length};
ghost use Rattle.logic.specs.Written.{Writes};
ghost use Rattle.refusal.specs.Refusal.{refusal_of};
ghost use Rattle.refusal.specs.Numbers.{answer, answer_by};
ghost use Rattle.cdi_command.specs.Payload.{response_buffer_min};
ghost use Rattle.cdi_model.specs.Step.{request, command, power_up, powered_up};
ghost use Rattle.cdi_module.specs.Module.{decided, decide_given, response_with, response_to, responded_to, length_responded, step, result_of, told, told_by, state_left};

use cdi_command::Command;
use cdi_frame::WAKE_LIMIT;
use cdi_item::NAME_LENGTH;
use cdi_state::ModuleState;
use refusal::{Numbered, Refusal};

// The longest response is that to a Read of the name: three bytes of the frame, C1, the item and 17 bytes.
pub const RESPONSE_BUFFER_MIN: usize = 22;

// What came of a block: the state after it, and the length of the response or the refusal.
#[derive(Clone, Copy)]
pub struct Execution {
    pub state: ModuleState,
    pub outcome: Result<usize, Refusal>,
}

// Decides on a command block: its command, or its refusal. `valid` tells whether the state is valid, and `room` how many
// bytes the response buffer has that `respond` is to be handed. No step changes whether a state is valid, so a caller that runs many
// blocks asks once.
#[tactic(auto, using(crate::proofs::Block::payload_lies_within), unfolding(crate::specs::Module::command_in))]
pub fn decide(valid: bool, room: usize, block: &[u8]) -> Result<Command, Refusal>
    ensures { decided (answer result) ≡ decide_given valid room block.now }
{
    if room < RESPONSE_BUFFER_MIN {
        return Err(Refusal::ResponseBufferShort);
    }
    if !valid {
        return Err(Refusal::Invalid);
    }
    let span = cdi_frame::read_frame(block, WAKE_LIMIT)?;
    cdi_command::validate_payload(&block[span.start..span.start + span.length])
}

// Writes the response to a command that reads nothing over the front of `response`, and returns its length. The buffer is asked for its room once, by
// `respond`: a type for a buffer with room would be taken apart in each of these three at once.
fn write_ack(command: Command, response: &mut [u8]) -> usize
    requires { response_buffer_min ≤ length response.old }
    ensures { Writes (response_with command []) response.old response.new result }
{
    let payload = cdi_payload::payload_of(command);
    response::write_frame(payload.as_slice(), &[], response)
}

// Writes the response to a command with the value that it reads.
fn write_read(state: ModuleState, command: Command, response: &mut [u8]) -> usize
    requires { response_buffer_min ≤ length response.old }
    ensures { Writes (response_to state command) response.old response.new result }
{
    let payload = cdi_payload::payload_of(command);
    let mut value = [0u8; NAME_LENGTH];
    let count = cdi_value::read(state, command, &mut value);
    response::write_frame(payload.as_slice(), &value[..count], response)
}

// Writes the response to an accepted command. A command that stores reads nothing, so the state is handed on for the reads alone.
fn write_accepted(state: ModuleState, command: Command, response: &mut [u8]) -> usize
    requires { response_buffer_min ≤ length response.old }
    ensures { Writes (response_to state command) response.old response.new result }
{
    if cdi_store::stores(Ok::<Command, Refusal>(command)) {
        return write_ack(command, response);
    }
    write_read(state, command, response)
}

// Responds to what was decided on a block, by the state as the block finds it. The response is written over the front of `response` and
// the bytes after it stay. A refusal changes no byte of it, and is passed on, whatever it is. A buffer that is too short for the
// longest response is refused.
pub fn respond<E: Numbered>(
    state: ModuleState,
    decided: Result<Command, E>,
    response: &mut [u8],
) -> Result<usize, E>
    ensures { (told_by E.as_number result response.new ≡ responded_to state (answer_by E.as_number decided) response.old)
        × (answer_by E.as_number result ≡ length_responded state (answer_by E.as_number decided) response.old) }
{
    if response.len() < RESPONSE_BUFFER_MIN {
        return Err(E::of(Refusal::ResponseBufferShort));
    }
    let command = decided?;
    Ok(write_accepted(state, command, response))
}

// Executes one command block on a state: decides on it, responds, and stores. A refusal changes no byte of `response` and nothing in the
// state. Where a block stores nothing no other state is made.
pub fn execute(mut state: ModuleState, block: &[u8], response: &mut [u8]) -> Execution
    ensures { (result.state ≡ step state (command (request block.now response.old))) × (told result.outcome response.new ≡ result_of state (command (request block.now response.old))) }
{
    let valid = cdi_valid::is_valid(state);
    let decided = decide(valid, response.len(), block);
    let outcome = respond(state, decided, response);
    if cdi_store::stores(decided) {
        state = cdi_store::store(state, decided);
    }
    Execution { state, outcome }
}

// Powers a module up: its working part is made from the stored one, RSSI is 80 80, events and flags are 00. A refusal leaves the state.
#[tactic(auto, unfolding(crate::specs::Module::step, crate::specs::Module::result_of, crate::specs::Module::decide))]
pub fn power_up(state: ModuleState) -> Result<ModuleState, Refusal>
    ensures { (state_left state result ≡ step state power_up) × (powered_up (refusal_of (answer result)) ≡ result_of state power_up) }
{
    if !cdi_valid::is_valid(state) {
        return Err(Refusal::Invalid);
    }
    Ok(cdi_store::powered_up(state))
}
