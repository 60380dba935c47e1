// Whether a state is valid: document 01, "Items". The item list says which values are accepted. The factory state is valid, and after a
// power-up the stored part alone decides.
#![tactic(auto)]

ghost use Rattle.std.specs.Prelude.{◌≡◌, [], ◌∷◌};
ghost use Rattle.logic.specs.Lists.{has_zero};
ghost use Rattle.cdi_item.specs.Values.{accepted_value};
ghost use Rattle.cdi_valid.specs.Valid.{valid_input, valid_settings, valid_slot, valid_slots, valid_stored, is_valid};

use cdi_item::{NAME_LENGTH, ROW_LENGTH, SLOT_COUNT, Value, code};
use cdi_state::{AnalogInput, ModuleState, Settings, Slot, Stored};

// Whether a 00 is among the bytes of a name. None ends the loop early, as one would end `any`: as with the slots below, that is cheaper.
fn has_zero(name: &[u8; NAME_LENGTH]) -> bool
    ensures { result ≡ has_zero name.now }
{
    let mut found = false;
    for byte in name {
        found = found | (*byte == 0);
    }
    found
}

// Whether an item accepts a byte as its value.
#[tactic(auto, unfolding(cdi_item::specs::Values::accepted_value))]
fn accepts_byte(item: u8, byte: u8) -> bool
    ensures { result ≡ accepted_value item (byte ∷ []) }
{
    cdi_item::accepts(item, Value::from([byte, 0, 0, 0, 0]))
}

// Whether an item accepts a row of five bytes as its value. Where it is called the item is known, so one rule is left of all.
#[inline(always)]
fn accepts_row(item: u8, row: [u8; ROW_LENGTH]) -> bool
    ensures { result ≡ accepted_value item row }
{
    cdi_item::accepts(item, Value::from(row))
}

fn is_valid_slot(slot: Slot) -> bool
    ensures { result ≡ valid_slot slot }
{
    accepts_row(code::PAIRED_MODULE, slot.into())
}

fn is_valid_input(input: AnalogInput) -> bool
    ensures { result ≡ valid_input input }
{
    accepts_row(code::ANALOG_INPUT, input.into())
}

// No slot ends the loop early, as one would end `all`: without a branch for each, the loop is cheaper.
fn are_valid_slots(slots: &[Slot; SLOT_COUNT]) -> bool
    ensures { result ≡ valid_slots slots.now }
{
    let mut valid = true;
    for slot in slots {
        valid = valid & is_valid_slot(*slot);
    }
    valid
}

fn are_valid_settings(settings: &Settings) -> bool
    ensures { result ≡ valid_settings settings.now }
{
    let [first, second] = settings.analog_inputs;
    accepts_byte(code::TX_POWER, settings.tx_power)
        & accepts_byte(code::CONTROL_SOURCE, settings.control_source)
        & accepts_byte(code::MESSAGE_SELECT, settings.message_select)
        & is_valid_input(first)
        & is_valid_input(second)
}

// Whether the stored part of a state is valid.
fn is_valid_stored(stored: &Stored) -> bool
    ensures { result ≡ valid_stored stored.now }
{
    has_zero(&stored.name) & are_valid_settings(&stored.settings) & are_valid_slots(&stored.slots)
}

// Whether commands and power-ups are accepted on the state (01's "sound").
#[tactic(auto, unfolding(crate::specs::Valid::is_valid))]
pub fn is_valid(state: ModuleState) -> bool
    ensures { result ≡ is_valid state }
{
    is_valid_stored(&state.stored)
        & are_valid_settings(&state.working.settings)
        & cdi_item::accepts_flags(state.live.flags)
}
