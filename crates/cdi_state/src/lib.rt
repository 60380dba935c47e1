// The module's state (01's "module record"): document 01, "Items". It has three parts: what is stored, what the module works with, and
// what is live. The settings are in the first two.
#![tactic(auto)]

ghost use Rattle.std.specs.Prelude.{◌≡◌, ℕ, ◌<◌, get_or, length};
ghost use Rattle.cdi_item.specs.Items.{input_count};
ghost use Rattle.cdi_state.specs.State.{input_bytes, input_in, slot_bytes, slot_in, input_offset, no_input, factory_state, ArrayLengths, FieldLengths};

use cdi_item::{INPUT_COUNT, NAME_LENGTH, ROW_LENGTH, SLOT_COUNT};

// The bytes of items 02, 03 and 10, which are also those of the address in a slot, ...
pub const FIRMWARE_LENGTH: usize = 3;

pub const SERIAL_LENGTH: usize = 4;

pub const ADDRESS_LENGTH: usize = 4;

// ... of an input's offset, ...
pub const OFFSET_LENGTH: usize = 2;

// ... and of items 20 and 21.
pub const LINES_LENGTH: usize = 2;

pub const RSSI_LENGTH: usize = 2;

// What both RSSI bytes hold before a signal was measured.
pub const RSSI_NONE: u8 = 0x80;

// A paired module (001's Paired Module Descriptor). Address 00 00 00 00 with mask 00 is an empty slot.
#[repr(C)]
#[derive(Clone, Copy)]
pub struct Slot {
    pub address: [u8; ADDRESS_LENGTH],
    pub mask: u8,
}

// A row of item 16 (001's Analog Input Select). The offset has its high byte first.
#[repr(C)]
#[derive(Clone, Copy)]
pub struct AnalogInput {
    pub channel: u8,
    pub readings: u8,
    pub reference: u8,
    pub offset: [u8; OFFSET_LENGTH],
}

// One copy of the settings, items 11 to 16 and 25.
#[repr(C)]
#[derive(Clone, Copy)]
pub struct Settings {
    pub line_mask: u8,
    pub latch_mask: u8,
    pub tx_power: u8,
    pub control_source: u8,
    pub message_select: u8,
    pub analog_inputs: [AnalogInput; INPUT_COUNT],
    pub interrupt_mask: u8,
}

// The values that the hardware's pins select where the control source leaves them to the hardware.
#[repr(C)]
#[derive(Clone, Copy)]
pub struct HardwareSelection {
    pub power: u8,
    pub line_mask: u8,
    pub latch_mask: u8,
}

// What is kept without power (01's N): identity, settings and slots. An image holds exactly this.
#[repr(C)]
#[derive(Clone, Copy)]
pub struct Stored {
    pub name: [u8; NAME_LENGTH],
    pub firmware: [u8; FIRMWARE_LENGTH],
    pub serial: [u8; SERIAL_LENGTH],
    pub address: [u8; ADDRESS_LENGTH],
    pub settings: Settings,
    pub slots: [Slot; SLOT_COUNT],
}

// What the module works with (01's V): a power-up makes it from the stored part.
#[repr(C)]
#[derive(Clone, Copy)]
pub struct Working {
    pub settings: Settings,
}

// What the controller sets (01's live cells): inputs, signal, events, flags and the hardware's pins.
#[repr(C)]
#[derive(Clone, Copy)]
pub struct Live {
    pub lines: [u8; LINES_LENGTH],
    pub rssi: [u8; RSSI_LENGTH],
    pub ladj: u8,
    pub events: u8,
    pub flags: u8,
    pub hardware: HardwareSelection,
}

// Everything that a module holds. Each field is a cell of the reference model, or holds some of its cells.
#[repr(C)]
#[derive(Clone, Copy)]
pub struct ModuleState {
    pub stored: Stored,
    pub working: Working,
    pub live: Live,
}

impl Slot {
    pub const EMPTY: Slot = Slot {
        address: [0; ADDRESS_LENGTH],
        mask: 0,
    };
}

// The slot as item 18 has it, ...
impl From<Slot> for [u8; ROW_LENGTH] {
    ghost from_gives = { λ slot row. row ≡ slot_bytes slot };

    fn from(slot: Slot) -> [u8; ROW_LENGTH] {
        let [first, second, third, fourth] = slot.address;
        [first, second, third, fourth, slot.mask]
    }
}

// ... and the slot that has these bytes.
impl From<[u8; ROW_LENGTH]> for Slot {
    ghost from_gives = { λ row slot. slot ≡ slot_in row };

    fn from(row: [u8; ROW_LENGTH]) -> Slot {
        let [first, second, third, fourth, mask] = row;
        Slot {
            address: [first, second, third, fourth],
            mask,
        }
    }
}

impl AnalogInput {
    pub const DEFAULT: AnalogInput = AnalogInput {
        channel: 0xFF,
        readings: 1,
        reference: 0,
        offset: [0; OFFSET_LENGTH],
    };

    // The offset as the signed number that `analog::readout` takes.
    pub fn signed_offset(self) -> i16
        ensures { result ≡ input_offset self }
    {
        i16::from_be_bytes(self.offset)
    }
}

// The input as item 16 has it, ...
impl From<AnalogInput> for [u8; ROW_LENGTH] {
    ghost from_gives = { λ input row. row ≡ input_bytes input };

    fn from(input: AnalogInput) -> [u8; ROW_LENGTH] {
        let [high, low] = input.offset;
        [input.channel, input.readings, input.reference, high, low]
    }
}

// ... and the input that has these bytes.
impl From<[u8; ROW_LENGTH]> for AnalogInput {
    ghost from_gives = { λ row input. input ≡ input_in row };

    fn from(row: [u8; ROW_LENGTH]) -> AnalogInput {
        let [channel, readings, reference, high, low] = row;
        AnalogInput {
            channel,
            readings,
            reference,
            offset: [high, low],
        }
    }
}

impl Settings {
    // What Set Default stores in both copies.
    pub const DEFAULT: Settings = Settings {
        line_mask: 0,
        latch_mask: 0,
        tx_power: 0,
        control_source: 0x06,
        message_select: 0,
        analog_inputs: [AnalogInput::DEFAULT; INPUT_COUNT],
        interrupt_mask: 0,
    };
}

// This function does nothing: it is there for its contract. The length of an array inside another array's element is known once the
// element is read as a row, which has five bytes.
fn offset_lengths(inputs: &[AnalogInput; INPUT_COUNT])
    ensures { (i : ℕ) → i < input_count → length (get_or inputs.now i no_input).offset ≡ 2 }
{
    for input in inputs {
        let _row = <[u8; ROW_LENGTH]>::from(*input);
    }
}

impl ModuleState {
    // The state as a module leaves the factory.
    pub fn factory() -> ModuleState
        ensures { result ≡ factory_state }
    {
        ModuleState {
            stored: Stored {
                name: [0; NAME_LENGTH],
                firmware: [0; FIRMWARE_LENGTH],
                serial: [0; SERIAL_LENGTH],
                address: [0; ADDRESS_LENGTH],
                settings: Settings::DEFAULT,
                slots: [Slot::EMPTY; SLOT_COUNT],
            },
            working: Working {
                settings: Settings::DEFAULT,
            },
            live: Live {
                lines: [0; LINES_LENGTH],
                rssi: [RSSI_NONE; RSSI_LENGTH],
                ladj: 0,
                events: 0,
                flags: 0,
                hardware: HardwareSelection {
                    power: 0,
                    line_mask: 0,
                    latch_mask: 0,
                },
            },
        }
    }

    // The state as it is. Its contract is what it is for: the lengths of its arrays, which a theorem about the states of a
    // program may then ask for. The slots are read for the lengths of their addresses, as the inputs are for those of their offsets.
    pub fn array_lengths(self) -> ModuleState
        ensures { (result ≡ self) × (ArrayLengths self × FieldLengths self) }
    {
        offset_lengths(&self.stored.settings.analog_inputs);
        offset_lengths(&self.working.settings.analog_inputs);
        for slot in &self.stored.slots {
            let _row = <[u8; ROW_LENGTH]>::from(*slot);
        }
        self
    }
}
