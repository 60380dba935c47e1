// The values in responses to reads, item by item: the place of the first byte that no valid state can have there. Each item's rule is that of
// `cdi_item::accepts`, over the bytes that have come, with accepted ones for those that have not.
ghost use Rattle.std.specs.Prelude.{◌≡◌, [], ◌∷◌, eqb, false, ◌≤◌, length};
ghost use Rattle.refusal.specs.Refusal.{accepted};
ghost use Rattle.cdi_item.specs.Items.{item_of, name, status, analog_input, paired_module};
ghost use Rattle.cdi_item.specs.Values.{accepted_input, value_bytes};
ghost use Rattle.cdi_decode.specs.Scan.{byte_or, end_of, is_whole_value, row_of, first_of};
ghost use Rattle.cdi_decode.specs.Decode.{place_in_value};

use cdi_item::{EVENT_FLAG, Item, NAME_LENGTH, ROW_LENGTH, Value, code};

// What stands for the bytes of an analog input that have not come.
const CHANNEL: u8 = 0xFF;

const READINGS: u8 = 1;

const REFERENCE: u8 = 0;

// The bytes that have come of the value of a served item.
#[derive(Clone, Copy)]
pub(crate) struct Arrived<'a> {
    pub(crate) item: Item,
    pub(crate) bytes: &'a [u8],
    ghost served: { item_of item.code ≡ accepted item },
}

#[tactic(auto, unfolding(cdi_item::specs::Values::accepted_value))]
fn accepts_input(channel: u8, readings: u8, reference: u8) -> bool
    ensures { result ≡ accepted_input (channel ∷ readings ∷ reference ∷ []) }
{
    cdi_item::accepts(
        code::ANALOG_INPUT,
        Value::from([channel, readings, reference, 0, 0]),
    )
}

impl<'a> Arrived<'a> {
    // How many of the bytes are within the item's length.
    fn end(&self) -> usize
        ensures { result ≡ end_of self.now.item self.now.bytes.now }
    {
        self.bytes.len().min(self.item.length as usize)
    }

    // A byte, or another one where the value does not go on so far.
    fn byte_or(&self, i: usize, other: u8) -> u8
        ensures { result ≡ byte_or self.now.bytes.now i other }
    {
        self.bytes.get(i).copied().unwrap_or(other)
    }

    // The first five bytes.
    fn row(&self) -> Value
        requires { 5 ≤ length self.now.bytes.now }
        ensures { value_bytes result ≡ value_bytes (row_of self.now.bytes.now) }
    {
        Value::from(*self.bytes.first_chunk().unwrap())
    }

    // The first byte, for an item that has a rule for no other.
    fn first(&self) -> Value
        requires { 1 ≤ length self.now.bytes.now }
        ensures { value_bytes result ≡ value_bytes (first_of self.now.bytes.now) }
    {
        Value::from([self.bytes[0], 0, 0, 0, 0])
    }

    // A name has no byte after its first 00, and that is its seventeenth byte at the latest. So no byte behind the seventeenth is looked at.
    fn place_in_name(&self) -> usize
        requires { self.now.item.code ≡ name }
        ensures { result ≡ place_in_value self.now.item self.now.bytes.now }
    {
        let front = &self.bytes[..self.bytes.len().min(NAME_LENGTH)];
        match front.iter().position(|byte| *byte == 0) {
            Some(zero) => zero + 1,
            None => self.bytes.len().min(NAME_LENGTH - 1),
        }
    }

    // Of the status the first byte has a rule: without bit 7 it is the flags. Bit 7 tells of an event; events and their mask are free, so it is.
    fn place_in_status(&self) -> usize
        requires { self.now.item.code ≡ status }
        ensures { result ≡ place_in_value self.now.item self.now.bytes.now }
    {
        if self.bytes.is_empty() {
            return 0;
        }
        if !cdi_item::accepts_flags(self.bytes[0] % EVENT_FLAG) {
            return 0;
        }
        self.end()
    }

    // Of an analog input the first three bytes have a rule each.
    fn place_in_input(&self) -> usize
        requires { self.now.item.code ≡ analog_input }
        ensures { result ≡ place_in_value self.now.item self.now.bytes.now }
    {
        let channel = self.byte_or(0, CHANNEL);
        let readings = self.byte_or(1, READINGS);
        let reference = self.byte_or(2, REFERENCE);
        if !accepts_input(channel, READINGS, REFERENCE) {
            return 0;
        }
        if !accepts_input(channel, readings, REFERENCE) {
            return 1;
        }
        if !accepts_input(channel, readings, reference) {
            return 2;
        }
        self.end()
    }

    // Of a slot the mask has a rule, which is about the address too.
    fn place_in_slot(&self) -> usize
        requires { self.now.item.code ≡ paired_module }
        ensures { result ≡ place_in_value self.now.item self.now.bytes.now }
    {
        if self.bytes.len() < ROW_LENGTH {
            return self.bytes.len();
        }
        if !cdi_item::accepts(code::PAIRED_MODULE, self.row()) {
            return ROW_LENGTH - 1;
        }
        ROW_LENGTH
    }

    // Of any other item that has a rule it is about the first byte.
    fn place_in_bytes(&self) -> usize
        requires { (eqb self.now.item.code name ≡ false) × (eqb self.now.item.code status ≡ false) × (eqb self.now.item.code analog_input ≡ false) × (eqb self.now.item.code paired_module ≡ false) }
        ensures { result ≡ place_in_value self.now.item self.now.bytes.now }
    {
        if self.bytes.is_empty() {
            return 0;
        }
        if !cdi_item::accepts(self.item.code, self.first()) {
            return 0;
        }
        self.end()
    }

    // The place of the first byte that may not follow those before it; the length if each may.
    pub(crate) fn place(&self) -> usize
        ensures { result ≡ place_in_value self.now.item self.now.bytes.now }
    {
        match self.item.code {
            code::NAME => self.place_in_name(),
            code::STATUS => self.place_in_status(),
            code::ANALOG_INPUT => self.place_in_input(),
            code::PAIRED_MODULE => self.place_in_slot(),
            _ => self.place_in_bytes(),
        }
    }

    // Whether a name is whole. It ends with its first 00, so that is its last byte.
    fn is_whole_name(&self) -> bool
        requires { self.now.item.code ≡ name }
        ensures { result ≡ is_whole_value self.now.item self.now.bytes.now }
    {
        match self.bytes.split_last() {
            Some((last, before)) => {
                *last == 0 && before.len() < NAME_LENGTH && !before.contains(&0)
            }
            None => false,
        }
    }

    // Whether the value is whole and each byte of it may follow those before it. A value of any item but the name has as many bytes as the
    // item, and its rule is tested at once.
    pub(crate) fn is_whole(&self) -> bool
        ensures { result ≡ is_whole_value self.now.item self.now.bytes.now }
    {
        if self.item.code == code::NAME {
            return self.is_whole_name();
        }
        if self.bytes.len() != self.item.length as usize {
            return false;
        }
        match self.item.code {
            code::STATUS => cdi_item::accepts_flags(self.bytes[0] % EVENT_FLAG),
            code::ANALOG_INPUT => cdi_item::accepts(code::ANALOG_INPUT, self.row()),
            code::PAIRED_MODULE => cdi_item::accepts(code::PAIRED_MODULE, self.row()),
            code => cdi_item::accepts(code, self.first()),
        }
    }
}
