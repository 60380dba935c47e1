// The value that a command reads: document 01, "Items". `read` writes it over the front of a buffer: for Read the working copy, for
// Read NV the stored one, for any other command nothing. Nothing is written into less room than the longest value needs, and the bytes
// after the value stay.
#![tactic(auto)]

ghost use Rattle.std.specs.Prelude.{◌≡◌, ◌≤◌, length};
ghost use Rattle.std.specs.Option.{option_to_list};
ghost use Rattle.logic.specs.Written.{Writes};
ghost use Rattle.cdi_item.specs.Items.{row_length};
ghost use Rattle.cdi_value.specs.Value.{name_shown, setting_value, status_shown, plain_value, row_value, value_into, value_max, value_room, Shows};

use cdi_command::{Command, Index};
use cdi_item::{EVENT_FLAG, NAME_LENGTH, ROW_LENGTH, code};
use cdi_state::{ModuleState, Settings, Stored};

// The control source's bits that take power, line mask and latch mask from the settings and not from the hardware.
const POWER_FROM_SETTING: u8 = 0x01;

const LINE_MASK_FROM_SETTING: u8 = 0x08;

const LATCH_MASK_FROM_SETTING: u8 = 0x10;

// The bytes of a name that are shown: those before its first 00, and that one.
fn shown(name: &[u8; NAME_LENGTH]) -> &[u8]
    ensures { (result.now ≡ name_shown name.now) × (length result.now ≤ value_max) }
{
    match name.iter().position(|byte| *byte == 0) {
        Some(last) => &name[..last + 1],
        None => name,
    }
}

// The bytes of item 23.
const STATUS_LENGTH: usize = 4;

// Item 23.
#[tactic(auto, unfolding(crate::specs::Value::status_shown))]
fn status(state: &ModuleState) -> [u8; STATUS_LENGTH]
    ensures { result ≡ status_shown state.now.working.settings state.now.live.hardware state.now.live.flags state.now.live.events }
{
    let settings = state.working.settings;
    let live = state.live;
    let control = settings.control_source;
    let flags = if live.events & settings.interrupt_mask == 0 {
        live.flags
    } else {
        live.flags | EVENT_FLAG
    };
    let power = if control & POWER_FROM_SETTING == 0 {
        live.hardware.power
    } else {
        settings.tx_power
    };
    let line_mask = if control & LINE_MASK_FROM_SETTING == 0 {
        live.hardware.line_mask
    } else {
        settings.line_mask
    };
    let latch_mask = if control & LATCH_MASK_FROM_SETTING == 0 {
        live.hardware.latch_mask
    } else {
        settings.latch_mask
    };
    [flags, power, line_mask, latch_mask]
}

// The byte of an item in one copy of the settings; none for a code that is no setting's.
#[tactic(auto, unfolding(crate::specs::Value::setting_value))]
fn setting(settings: &Settings, item: u8) -> Option<u8>
    ensures { option_to_list result ≡ setting_value settings.now item }
{
    match item {
        code::LINE_MASK => Some(settings.line_mask),
        code::LATCH_MASK => Some(settings.latch_mask),
        code::TX_POWER => Some(settings.tx_power),
        code::CONTROL_SOURCE => Some(settings.control_source),
        code::MESSAGE_SELECT => Some(settings.message_select),
        code::INTERRUPT_MASK => Some(settings.interrupt_mask),
        _ => None,
    }
}

// Writes a value over the front of `out`, and returns how many bytes that is.
fn show(value: &[u8], out: &mut [u8]) -> usize
    requires { length value.now ≤ length out.old }
    ensures { Writes value.now out.old out.new result }
{
    byte_copy::copy(value, out)
}

// The value of an item that has no index, its settings from one copy.
#[tactic(auto, unfolding(crate::specs::Value::plain_value, logic::specs::Written::written))]
fn read_plain(state: &ModuleState, settings: &Settings, item: u8, out: &mut [u8]) -> usize
    requires { value_max ≤ length out.old }
    ensures { Shows value_max (plain_value state.now settings.now item) out.old out.new result }
{
    match item {
        code::NAME => show(shown(&state.stored.name), out),
        code::FIRMWARE => show(&state.stored.firmware, out),
        code::SERIAL => show(&state.stored.serial, out),
        code::ADDRESS => show(&state.stored.address, out),
        code::LINES => show(&state.live.lines, out),
        code::RSSI => show(&state.live.rssi, out),
        code::LADJ => show(&[state.live.ladj], out),
        code::STATUS => show(&status(state), out),
        code::EVENTS => show(&[state.live.events], out),
        _ => match setting(settings, item) {
            Some(byte) => show(&[byte], out),
            None => 0,
        },
    }
}

// A row of an indexed item: slots count from 0, inputs from 1. Nothing where there is no such row.
#[tactic(auto, unfolding(logic::specs::Written::written))]
fn read_row(stored: &Stored, settings: &Settings, index: Index, out: &mut [u8]) -> usize
    requires { row_length ≤ length out.old }
    ensures { Shows row_length (row_value stored.now settings.now index) out.old out.new result }
{
    match index {
        Index::Slot(at) if cdi_item::is_slot_index(at.0) => {
            let row = <[u8; ROW_LENGTH]>::from(stored.slots[at.0 as usize]);
            show(&row, out)
        }
        Index::Input(number) if cdi_item::is_input_number(number.0) => {
            let row = <[u8; ROW_LENGTH]>::from(settings.analog_inputs[(number.0 - 1) as usize]);
            show(&row, out)
        }
        _ => 0,
    }
}

// Writes what a command reads over the front of `out`, and returns how many bytes that is, a count and no sign where it is 0: Read the working copy, Read NV the stored one,
// any other command nothing. Where `out` has less room than the longest value, nothing is read.
#[tactic(auto, unfolding(logic::specs::Written::written))]
pub fn read(state: ModuleState, command: Command, out: &mut [u8]) -> usize
    ensures { Shows (value_room command) (value_into (length out.old) state command) out.old out.new result }
{
    if out.len() < NAME_LENGTH {
        return 0;
    }
    match command {
        Command::Read(item) => read_plain(&state, &state.working.settings, item.code, out),
        Command::ReadIndexed(_, index) => {
            read_row(&state.stored, &state.working.settings, index, out)
        }
        Command::ReadNv(item) => read_plain(&state, &state.stored.settings, item.code, out),
        Command::ReadNvIndexed(_, index) => {
            read_row(&state.stored, &state.stored.settings, index, out)
        }
        _ => 0,
    }
}
