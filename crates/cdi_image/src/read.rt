// Reading an image: whether its head is that of version 1, and the stored part that its contents hold.
ghost use Rattle.std.specs.Prelude.{◌≡◌, ◌+◌, ◌*◌, ◌≤◌, length};
ghost use Rattle.logic.specs.Lists.{same_bytes, part, between};
ghost use Rattle.cdi_item.specs.Items.{row_length, slot_count};
ghost use Rattle.cdi_image.specs.Image.{mark, version1, version_at, head_size, contents_size, settings_in, slots_in, stored_in};

use super::{
    ADDRESS_AT, FIRMWARE_AT, HEAD_SIZE, INPUT_1_AT, INPUT_2_AT, INTERRUPT_MASK_AT, MARK, NAME_AT,
    SERIAL_AT, SETTINGS_AT, SINGLE_COUNT, SLOTS_AT, VERSION_1, VERSION_AT,
};
use cdi_item::{ROW_LENGTH, SLOT_COUNT};
use cdi_state::{AnalogInput, Settings, Slot, Stored};

// This and the next have one form. A function over the place and the bytes would be no plainer: it would be `==` once more.
#[tactic(auto, using(crate::proofs::Fit::pointwise_is_same))]
pub(crate) fn has_mark(image: &[u8]) -> bool
    requires { head_size ≤ length image.now }
    ensures { result ≡ same_bytes (between 0 version_at image.now) mark }
{
    image[..VERSION_AT] == MARK[..]
}

#[tactic(auto, using(crate::proofs::Fit::pointwise_is_same))]
pub(crate) fn has_version_1(image: &[u8]) -> bool
    requires { head_size ≤ length image.now }
    ensures { result ≡ same_bytes (between version_at head_size image.now) version1 }
{
    image[VERSION_AT..HEAD_SIZE] == VERSION_1[..]
}

// The bytes from a place on, as an array.
fn part<const N: usize>(source: &[u8], at: usize) -> [u8; N]
    requires { at + N ≤ length source.now }
    ensures { result ≡ part at N source.now }
{
    let mut bytes = [0; N];
    bytes.copy_from_slice(&source[at..at + N]);
    bytes
}

// By a loop and not by `array::from_fn`, which was tried: what it tells of its calls leaves open which bytes the closure reads.
fn slots_in(rows: &[u8]) -> [Slot; SLOT_COUNT]
    requires { length rows.now ≡ slot_count * row_length }
    ensures { result ≡ slots_in slot_count rows.now }
{
    let mut slots = [Slot::EMPTY; SLOT_COUNT];
    for (i, slot) in slots.iter_mut().enumerate() {
        *slot = Slot::from(part::<ROW_LENGTH>(rows, ROW_LENGTH * i));
    }
    slots
}

fn settings_in(contents: &[u8]) -> Settings
    requires { contents_size ≤ length contents.now }
    ensures { result ≡ settings_in contents.now }
{
    let single: [u8; SINGLE_COUNT] = part(contents, SETTINGS_AT);
    let [
        line_mask,
        latch_mask,
        tx_power,
        control_source,
        message_select,
    ] = single;
    let input_1: [u8; ROW_LENGTH] = part(contents, INPUT_1_AT);
    let input_2: [u8; ROW_LENGTH] = part(contents, INPUT_2_AT);
    Settings {
        line_mask,
        latch_mask,
        tx_power,
        control_source,
        message_select,
        analog_inputs: [AnalogInput::from(input_1), AnalogInput::from(input_2)],
        interrupt_mask: contents[INTERRUPT_MASK_AT],
    }
}

// The stored part that contents hold. What stands behind them is not read.
#[tactic(auto, unfolding(crate::specs::Image::stored_in))]
pub(crate) fn stored_in(contents: &[u8]) -> Stored
    requires { contents_size ≤ length contents.now }
    ensures { result ≡ stored_in contents.now }
{
    Stored {
        name: part(contents, NAME_AT),
        firmware: part(contents, FIRMWARE_AT),
        serial: part(contents, SERIAL_AT),
        address: part(contents, ADDRESS_AT),
        settings: settings_in(contents),
        slots: slots_in(&contents[SLOTS_AT..INTERRUPT_MASK_AT]),
    }
}
