// The stored image: document 01, "Command writer and stored image". `save` writes what a module keeps without power, and `load` brings
// it back: what `save` writes `load` accepts on any state, with the same stored cells. An image that is refused changes nothing.
#![tactic(auto)]

mod read;
mod write;

ghost use Rattle.std.specs.Prelude.{◌≡◌, length};
ghost use Rattle.refusal.specs.Numbers.{answer, WritesIfAccepted};
ghost use Rattle.cdi_image.specs.Image.{saved, stored_loaded, loaded};

use cdi_item::{NAME_LENGTH, ROW_LENGTH, SLOT_COUNT};
use cdi_state::{ADDRESS_LENGTH, FIRMWARE_LENGTH, ModuleState, SERIAL_LENGTH, Stored};
use refusal::Refusal;

// An image starts with its head: the mark SWB, then the version with its high byte first.
const MARK: [u8; 3] = *b"SWB";

const VERSION_1: [u8; 2] = [0x00, 0x01];

const VERSION_AT: usize = 3;

const HEAD_SIZE: usize = 5;

// The settings of one byte that stand side by side, items 11 to 15.
const SINGLE_COUNT: usize = 5;

// Where each part of the contents starts, counted from the end of the head: behind the part before it.
const NAME_AT: usize = 0;

const FIRMWARE_AT: usize = NAME_AT + NAME_LENGTH;

const SERIAL_AT: usize = FIRMWARE_AT + FIRMWARE_LENGTH;

const ADDRESS_AT: usize = SERIAL_AT + SERIAL_LENGTH;

const SETTINGS_AT: usize = ADDRESS_AT + ADDRESS_LENGTH;

const INPUT_1_AT: usize = SETTINGS_AT + SINGLE_COUNT;

const INPUT_2_AT: usize = INPUT_1_AT + ROW_LENGTH;

const SLOTS_AT: usize = INPUT_2_AT + ROW_LENGTH;

const INTERRUPT_MASK_AT: usize = SLOTS_AT + SLOT_COUNT * ROW_LENGTH;

// The bytes of an image of version 1.
pub const IMAGE_V1_SIZE: usize = HEAD_SIZE + INTERRUPT_MASK_AT + 1;

// Writes the image of a state, which fills `image`. A refusal writes no byte of it.
#[tactic(auto, unfolding(crate::specs::Image::saved))]
pub fn save(state: ModuleState, image: &mut [u8]) -> Result<usize, Refusal>
    ensures { WritesIfAccepted (saved state (length image.old)) image.old image.new result }
{
    if image.len() != IMAGE_V1_SIZE {
        return Err(Refusal::ImageLength);
    }
    if !cdi_valid::is_valid(state) {
        return Err(Refusal::Invalid);
    }
    let stored = state.stored;
    write::write_image(&stored, image);
    Ok(IMAGE_V1_SIZE)
}

// The state with another stored part, and then powered up. Only that part is tested: after a power-up it decides whether the whole state is
// valid.
fn load_stored(state: ModuleState, stored: Stored) -> Result<ModuleState, Refusal>
    ensures { answer result ≡ stored_loaded state stored }
{
    let replaced = ModuleState {
        stored,
        working: state.working,
        live: state.live,
    };
    let after = cdi_store::powered_up(replaced);
    if !cdi_valid::is_valid(after) {
        return Err(Refusal::Invalid);
    }
    Ok(after)
}

// The state with what an image holds, and then powered up. The state before may be invalid; a refusal leaves it.
#[tactic(auto, unfolding(crate::specs::Image::loaded))]
pub fn load(state: ModuleState, image: &[u8]) -> Result<ModuleState, Refusal>
    ensures { answer result ≡ loaded state image.now }
{
    if image.len() != IMAGE_V1_SIZE {
        return Err(Refusal::ImageLength);
    }
    if !read::has_mark(image) {
        return Err(Refusal::ImageMark);
    }
    if !read::has_version_1(image) {
        return Err(Refusal::ImageVersion);
    }
    load_stored(state, read::stored_in(&image[HEAD_SIZE..]))
}
