// The entries with the C ABI; include/cdi.h declares them and says what each reads and writes. The state stays where the controller
// has it and is updated there (document 01, "Items", the bay controller's record): an entry calls a function by value with it, and
// stores the state of the result.
#![tactic(auto)]

ghost use Rattle.std.specs.Prelude.{◌≡◌, length};
ghost use Rattle.refusal.specs.Refusal.{refusal_of, outcome_of, buffer_after};
ghost use Rattle.refusal.specs.Numbers.{answer};
ghost use Rattle.analog.specs.Analog.{readout_of, percent_of};
ghost use Rattle.cdi_state.specs.State.{factory_state};
ghost use Rattle.cdi_model.specs.Step.{request, command, power_up, powered_up, responded};
ghost use Rattle.cdi_host.specs.Encode.{encode_command};
ghost use Rattle.cdi_decode.specs.Decode.{decode_response, decoded_fields};
ghost use Rattle.cdi_module.specs.Module.{step, result_of, state_left};
ghost use Rattle.cdi_image.specs.Image.{saved, loaded, loaded_as};

use analog::ReadoutResult;
use cdi_decode::Decoded;
use cdi_state::ModuleState;
use refusal::{NONE, Outcome, Refusal};

// Puts the state that a call gives where the controller has it, and tells the number of the refusal or 0. A refusal leaves the state.
fn keep(state: &mut ModuleState, given: Result<ModuleState, Refusal>) -> u8
    ensures { (state.new ≡ state_left state.old given) × (result ≡ refusal_of (answer given)) }
{
    match given {
        Ok(after) => {
            *state = after;
            NONE
        }
        Err(refusal) => refusal.number(),
    }
}

// The state as a module leaves the factory.
#[unsafe(no_mangle)]
pub extern "C" fn cdi_factory() -> ModuleState
    ensures { result ≡ factory_state }
{
    ModuleState::factory()
}

// Executes one command block.
#[unsafe(no_mangle)]
pub extern "C" fn cdi_execute(state: &mut ModuleState, block: &[u8], response: &mut [u8]) -> Outcome
    ensures { (state.new ≡ step state.old (command (request block.now response.old)))
        × (responded result.refusal result.length response.new ≡ result_of state.old (command (request block.now response.old))) }
{
    let done = cdi_module::execute(*state, block, response);
    *state = done.state;
    done.outcome.into()
}

// Powers the module up.
#[unsafe(no_mangle)]
pub extern "C" fn cdi_power_up(state: &mut ModuleState) -> u8
    ensures { (state.new ≡ step state.old power_up) × (powered_up result ≡ result_of state.old power_up) }
{
    keep(state, cdi_module::power_up(*state))
}

// Writes the stored image of the state.
#[unsafe(no_mangle)]
#[tactic(auto, using(refusal::proofs::Told::outcome_told))]
pub extern "C" fn cdi_save(state: &ModuleState, image: &mut [u8]) -> Outcome
    ensures { (result ≡ outcome_of (saved state.now (length image.old)))
        × (image.new ≡ buffer_after (saved state.now (length image.old)) image.old) }
{
    cdi_image::save(*state, image).into()
}

// Brings a stored image back.
#[unsafe(no_mangle)]
#[tactic(auto, using(crate::proofs::Loaded::loaded_state, crate::proofs::Loaded::loaded_refusal))]
pub extern "C" fn cdi_load(state: &mut ModuleState, image: &[u8]) -> u8
    ensures { (state.new ≡ (loaded_as state.old (loaded state.old image.now)).state)
        × (result ≡ (loaded_as state.old (loaded state.old image.now)).refusal) }
{
    keep(state, cdi_image::load(*state, image))
}

// Writes a payload as the frame of a command.
#[unsafe(no_mangle)]
#[tactic(auto, using(refusal::proofs::Told::outcome_told))]
pub extern "C" fn cdi_encode_command(payload: &[u8], wake: usize, frame: &mut [u8]) -> Outcome
    ensures { (result ≡ outcome_of (encode_command payload.now wake (length frame.old)))
        × (frame.new ≡ buffer_after (encode_command payload.now wake (length frame.old)) frame.old) }
{
    cdi_host::encode_command(payload, wake, frame).into()
}

// Reads a block as the module's response to a payload that was sent.
#[unsafe(no_mangle)]
pub extern "C" fn cdi_decode_response(sent: &[u8], response: &[u8]) -> Decoded
    ensures { result ≡ decoded_fields (decode_response sent.now response.now) }
{
    cdi_decode::decode_response(sent, response).into()
}

// The readout of readings.
#[unsafe(no_mangle)]
pub extern "C" fn cdi_readout(readings: &[u16], offset: i16) -> ReadoutResult
    ensures { result ≡ readout_of readings.now offset }
{
    analog::readout(readings, offset).into()
}

// A readout as whole percent of the reference.
#[unsafe(no_mangle)]
pub extern "C" fn cdi_percent(readout: u16) -> u8
    ensures { result ≡ percent_of readout }
{
    analog::percent(readout)
}
