// The payload of a command by the parts that it carries: document 01, "Frame" (payloads).
// Each function writes one layout of the eight bytes; a single one with parts left out would test for each part.
ghost use Rattle.std.specs.Prelude.{◌≡◌, ◌≤◌, [], ◌∷◌, min};
ghost use Rattle.cdi_command.specs.Payload.{index_byte, value_in};
ghost use Rattle.cdi_payload.specs.Carried.{carried};

use super::Payload;
use cdi_command::{Index, PLAIN_VALUE, ROW_VALUE};
use cdi_item::{Item, ROW_LENGTH, Value};

fn index_byte(index: Index) -> u8
    ensures { result ≡ index_byte index }
{
    match index {
        Index::Slot(at) => at.0,
        Index::Input(number) => number.0,
    }
}

// How many bytes of a value its item has: a value has no more than a row.
fn value_length(item: Item) -> usize
    ensures { result ≡ min 5 item.length }
{
    ROW_LENGTH.min(item.length as usize)
}

// The payload of a command that is its code alone.
pub(crate) fn bare(code: u8) -> Payload
    ensures { carried result ≡ code ∷ [] }
{
    Payload {
        bytes: [code, 0, 0, 0, 0, 0, 0, 0],
        length: 1,
    }
}

// The payload of a read of an item that has no index.
pub(crate) fn read(code: u8, item: Item) -> Payload
    ensures { carried result ≡ code ∷ item.code ∷ [] }
{
    Payload {
        bytes: [code, item.code, 0, 0, 0, 0, 0, 0],
        length: 2,
    }
}

// The payload of a read of a row.
pub(crate) fn read_row(code: u8, item: Item, index: Index) -> Payload
    ensures { carried result ≡ code ∷ item.code ∷ index_byte index ∷ [] }
{
    Payload {
        bytes: [code, item.code, index_byte(index), 0, 0, 0, 0, 0],
        length: 3,
    }
}

// The payload of a store of an item that has no index.
pub(crate) fn store(code: u8, item: Item, value: Value) -> Payload
    ensures { carried result ≡ code ∷ item.code ∷ value_in item value }
{
    let [first, second, third, fourth, fifth] = <[u8; ROW_LENGTH]>::from(value);
    Payload {
        bytes: [code, item.code, first, second, third, fourth, fifth, 0],
        length: PLAIN_VALUE + value_length(item),
    }
}

// The payload of a store of a row.
pub(crate) fn store_row(code: u8, item: Item, index: Index, value: Value) -> Payload
    ensures { carried result ≡ code ∷ item.code ∷ index_byte index ∷ value_in item value }
{
    let at = index_byte(index);
    let [first, second, third, fourth, fifth] = <[u8; ROW_LENGTH]>::from(value);
    Payload {
        bytes: [code, item.code, at, first, second, third, fourth, fifth],
        length: ROW_VALUE + value_length(item),
    }
}
