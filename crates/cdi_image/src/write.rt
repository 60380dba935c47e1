// Writing an image: the head, then the contents part by part. Each part is put over its own place and ends where the next one starts.
ghost use Rattle.std.specs.Prelude.{◌≡◌, ◌+◌, ◌≤◌, length};
ghost use mathlib.Core.List.{◌++◌, flat_map};
ghost use Rattle.std.proofs.lemmas.List.Edits.{sets};
ghost use Rattle.cdi_state.specs.State.{input_bytes, slot_bytes, input_at};
ghost use Rattle.cdi_image.specs.Image.{mark, version1, head_size, settings11_to15, contents_of, contents_size, image_of, image_v1_size, name_at, settings_at, slots_at, interrupt_mask_at};
ghost use Rattle.cdi_image.specs.Put.{Put};

use super::{
    ADDRESS_AT, FIRMWARE_AT, HEAD_SIZE, INPUT_1_AT, INPUT_2_AT, INTERRUPT_MASK_AT, MARK, NAME_AT,
    SERIAL_AT, SETTINGS_AT, SLOTS_AT, VERSION_1, VERSION_AT,
};
use cdi_item::{ROW_LENGTH, SLOT_COUNT};
use cdi_state::{Settings, Slot, Stored};

// Writes bytes over those from a place on. `byte_copy` is for a buffer that may be too short; here each part has its place.
fn put(source: &[u8], at: usize, buffer: &mut [u8])
    requires { at + length source.now ≤ length buffer.old }
    ensures { buffer.new ≡ sets buffer.old at source.now }
{
    buffer[at..at + source.len()].copy_from_slice(source);
}

// The image is asked for its length once, by `save`. A type for a buffer of that length would be no plainer: it would be made and taken apart again for
// the part behind the head.
fn write_head(image: &mut [u8])
    requires { head_size ≤ length image.old }
    ensures { Put image.old 0 (mark ++ version1) head_size image.new }
{
    put(&MARK, 0, image);
    put(&VERSION_1, VERSION_AT, image);
}

fn write_identity(stored: &Stored, contents: &mut [u8])
    requires { contents_size ≤ length contents.old }
    ensures { Put contents.old name_at (stored.now.name ++ stored.now.firmware ++ stored.now.serial ++ stored.now.address) settings_at contents.new }
{
    put(&stored.name, NAME_AT, contents);
    put(&stored.firmware, FIRMWARE_AT, contents);
    put(&stored.serial, SERIAL_AT, contents);
    put(&stored.address, ADDRESS_AT, contents);
}

fn write_settings(settings: &Settings, contents: &mut [u8])
    requires { contents_size ≤ length contents.old }
    ensures { Put contents.old settings_at (settings11_to15 settings.now ++ input_bytes (input_at settings.now 1) ++ input_bytes (input_at settings.now 2)) slots_at contents.new }
{
    let single = [
        settings.line_mask,
        settings.latch_mask,
        settings.tx_power,
        settings.control_source,
        settings.message_select,
    ];
    let [input_1, input_2] = settings.analog_inputs;
    put(&single, SETTINGS_AT, contents);
    put(&<[u8; ROW_LENGTH]>::from(input_1), INPUT_1_AT, contents);
    put(&<[u8; ROW_LENGTH]>::from(input_2), INPUT_2_AT, contents);
}

fn write_slots(slots: &[Slot; SLOT_COUNT], contents: &mut [u8])
    requires { contents_size ≤ length contents.old }
    ensures { Put contents.old slots_at (flat_map slot_bytes slots.now) interrupt_mask_at contents.new }
{
    for (i, slot) in slots.iter().enumerate() {
        let row = <[u8; ROW_LENGTH]>::from(*slot);
        put(&row, SLOTS_AT + ROW_LENGTH * i, contents);
    }
}

// Writes the contents over the front of what stands behind the head.
fn write_contents(stored: &Stored, contents: &mut [u8])
    requires { contents_size ≤ length contents.old }
    ensures { Put contents.old 0 (contents_of stored.now) contents_size contents.new }
{
    write_identity(stored, contents);
    write_settings(&stored.settings, contents);
    write_slots(&stored.slots, contents);
    contents[INTERRUPT_MASK_AT] = stored.settings.interrupt_mask;
}

// Writes an image of version 1 over the front of a buffer.
pub(crate) fn write_image(stored: &Stored, image: &mut [u8])
    requires { image_v1_size ≤ length image.old }
    ensures { Put image.old 0 (image_of stored.now) image_v1_size image.new }
{
    write_head(image);
    write_contents(stored, &mut image[HEAD_SIZE..]);
}
