// What a command and a power-up store in a state: document 01, "Items". A command is taken as it is; the module decides whether it is
// accepted. A code that is no setting, or an index out of range, stores nothing.
#![tactic(auto)]

ghost use Rattle.std.specs.Prelude.{◌≡◌};
ghost use Rattle.refusal.specs.Numbers.{answer_by};
ghost use Rattle.cdi_store.specs.Store.{setting_stored, input_stored, input_from, state_for, stores_for, state_at_power_up};

use cdi_command::{Command, Index};
use cdi_item::{InputNumber, ROW_LENGTH, SLOT_COUNT, Value, code};
use cdi_state::{AnalogInput, Live, ModuleState, RSSI_LENGTH, RSSI_NONE, Settings, Slot, Working};
use refusal::Numbered;

// One copy of the settings with another byte, by its item's code. A code that is no setting's changes nothing.
#[tactic(auto, unfolding(crate::specs::Store::setting_stored))]
fn with_byte(settings: Settings, item: u8, byte: u8) -> Settings
    ensures { result ≡ setting_stored settings item byte }
{
    let mut after = settings;
    match item {
        code::LINE_MASK => after.line_mask = byte,
        code::LATCH_MASK => after.latch_mask = byte,
        code::TX_POWER => after.tx_power = byte,
        code::CONTROL_SOURCE => after.control_source = byte,
        code::MESSAGE_SELECT => after.message_select = byte,
        code::INTERRUPT_MASK => after.interrupt_mask = byte,
        _ => {}
    }
    after
}

// One copy of the settings with another input, which document 01 numbers 1 and 2 in the source too. A number that is no input's changes nothing.
fn with_input(settings: Settings, number: InputNumber, value: Value) -> Settings
    ensures { result ≡ input_stored settings number.0 (input_from value) }
{
    let mut after = settings;
    let input = AnalogInput::from(<[u8; ROW_LENGTH]>::from(value));
    match number.0 {
        1 => after.analog_inputs[0] = input,
        2 => after.analog_inputs[1] = input,
        _ => {}
    }
    after
}

// The state after what was decided: what is refused stores nothing, whatever its number is.
#[tactic(auto, unfolding(crate::specs::Store::setting_stored))]
pub fn store<E: Numbered>(state: ModuleState, decided: Result<Command, E>) -> ModuleState
    ensures { result ≡ state_for state (answer_by E.as_number decided) }
{
    let mut stored = state.stored;
    let mut working = state.working;
    match decided {
        Ok(Command::Write(item, value)) => {
            working.settings = with_byte(working.settings, item.code, value.byte0);
        }
        Ok(Command::WriteIndexed(_, Index::Input(number), value)) => {
            working.settings = with_input(working.settings, number, value);
        }
        Ok(Command::Program(item, value)) if item.code == code::ADDRESS => {
            let [first, second, third, fourth, _] = <[u8; ROW_LENGTH]>::from(value);
            stored.address = [first, second, third, fourth];
        }
        Ok(Command::Program(item, Value { byte0, .. })) => {
            stored.settings = with_byte(stored.settings, item.code, byte0);
            working.settings = with_byte(working.settings, item.code, byte0);
        }
        Ok(Command::ProgramIndexed(_, Index::Slot(at), value)) if cdi_item::is_slot_index(at.0) => {
            stored.slots[at.0 as usize] = Slot::from(<[u8; ROW_LENGTH]>::from(value));
        }
        Ok(Command::ProgramIndexed(_, Index::Input(number), value)) => {
            stored.settings = with_input(stored.settings, number, value);
            working.settings = with_input(working.settings, number, value);
        }
        Ok(Command::SetDefault) => {
            stored.settings = Settings::DEFAULT;
            working.settings = Settings::DEFAULT;
        }
        Ok(Command::EraseAll) => stored.slots = [Slot::EMPTY; SLOT_COUNT],
        _ => {}
    }
    ModuleState {
        stored,
        working,
        live: state.live,
    }
}

// Whether what was decided stores anything: the reads do not, and what is refused does not.
pub fn stores<E: Numbered>(decided: Result<Command, E>) -> bool
    ensures { result ≡ stores_for (answer_by E.as_number decided) }
{
    match decided {
        Err(_) => false,
        Ok(
            Command::Read(_)
            | Command::ReadIndexed(_, _)
            | Command::ReadNv(_)
            | Command::ReadNvIndexed(_, _),
        ) => false,
        Ok(_) => true,
    }
}

// The state after a power-up.
pub fn powered_up(state: ModuleState) -> ModuleState
    ensures { result ≡ state_at_power_up state }
{
    ModuleState {
        stored: state.stored,
        working: Working {
            settings: state.stored.settings,
        },
        live: Live {
            rssi: [RSSI_NONE; RSSI_LENGTH],
            events: 0,
            flags: 0,
            ..state.live
        },
    }
}
