// The messages of a Wi.Freestar radio, as they are laid out and as they are read: document 004 and document 02, Ask 11. The data of a message
// are places in the block that was read. The laws of this crate say that a packet of the layout is read as what it holds, and that a
// block that is read is a packet of the layout.
#![tactic(auto)]

ghost use Rattle.std.specs.Prelude.{◌≡◌};
ghost use Rattle.logic.specs.Lists.{part};
ghost use Rattle.refusal.specs.Numbers.{answer};
ghost use Rattle.freestar_packet.specs.Layout.{requests, types, fits_in, start_of_data, is_pan_id, has_pan_id, pan_id_holds};
ghost use Rattle.freestar_packet.specs.Read.{validated};

use refusal::Refusal;

// The first and the last byte of every packet.
pub const START: u8 = 0x01;

pub const END: u8 = 0x04;

// The messages that are served, ... Types are bytes and no enum: a packet of whatever type is framed, and C hands any byte to the writer.
pub const SET_PAN_ID: u8 = 0x01;

pub const QUERY_PAN_ID: u8 = 0x02;

pub const SET_ADDRESS: u8 = 0x03;

pub const QUERY_ADDRESS: u8 = 0x04;

pub const SET_CHANNEL: u8 = 0x05;

pub const QUERY_CHANNEL: u8 = 0x06;

pub const RESET: u8 = 0x18;

// ... and their answers.
pub const SET_PAN_ID_ACKNOWLEDGED: u8 = 0x81;

pub const RESPOND_PAN_ID: u8 = 0x82;

pub const SET_ADDRESS_ACKNOWLEDGED: u8 = 0x83;

pub const RESPOND_ADDRESS: u8 = 0x84;

pub const SET_CHANNEL_ACKNOWLEDGED: u8 = 0x85;

pub const RESPOND_CHANNEL: u8 = 0x86;

pub const RESET_ACKNOWLEDGED: u8 = 0x98;
// The type of an answer is its message's plus this; the host's types are under it.
pub const ANSWER: u8 = 0x80;

// How many bytes a PAN ID, both addresses and a channel have as data.
pub const PAN_ID_LENGTH: usize = 2;

pub const ADDRESSES_LENGTH: usize = 10;

pub const CHANNEL_LENGTH: usize = 1;

// The bytes of a packet that are not data, and where the data begin.
pub const OVERHEAD: u8 = 5;

pub const DATA_START: usize = 3;
// Where the sum begins: the first byte is added.
pub const SUM_START: usize = 0;

// The first PAN ID that has more than 14 bits.
pub const PAN_ID_LIMIT: u16 = 0x4000;

// A message that was read: its type, and how many bytes of data it has from byte 3 of its block on. It has no slice of the block, since C's struct has the
// number; `content` gives the data.
#[derive(Clone, Copy)]
pub struct Message {
    pub kind: u8,
    pub data_length: u8,
}

impl Message {
    // The data of a message, in the block that it was read from; of a shorter block, as many as there are.
    pub fn content(self, block: &[u8]) -> &[u8]
        ensures { result.now ≡ part start_of_data self.data_length block.now }
    {
        let rest = &block[DATA_START.min(block.len())..];
        &rest[..rest.len().min(self.data_length as usize)]
    }
}

// Whether messages of this type are served and have so many bytes of data. A type and data are two values here and below: a writer's caller has them so,
// and a reader has them from a block.
#[tactic(auto, unfolding(crate::specs::Layout::fits_in))]
pub fn fits(kind: u8, size: usize) -> bool
    ensures { result ≡ fits_in types kind size }
{
    match kind {
        SET_PAN_ID | RESPOND_PAN_ID => size == PAN_ID_LENGTH,
        SET_ADDRESS | RESPOND_ADDRESS => size == ADDRESSES_LENGTH,
        SET_CHANNEL | RESPOND_CHANNEL => size == CHANNEL_LENGTH,
        QUERY_PAN_ID | QUERY_ADDRESS | QUERY_CHANNEL | RESET => size == 0,
        SET_PAN_ID_ACKNOWLEDGED
        | SET_ADDRESS_ACKNOWLEDGED
        | SET_CHANNEL_ACKNOWLEDGED
        | RESET_ACKNOWLEDGED => size == 0,
        _ => false,
    }
}

// Whether messages of this type are those that the host sends, and have so many bytes of data.
#[tactic(auto, using(crate::proofs::Types::fits_below, crate::proofs::Types::fits_under))]
pub fn fits_request(kind: u8, size: usize) -> bool
    ensures { result ≡ fits_in requests kind size }
{
    kind < ANSWER && fits(kind, size)
}

// Whether a PAN ID, by its low and its high byte, has at most 14 bits.
pub fn fits_pan_id(low: u8, high: u8) -> bool
    ensures { result ≡ is_pan_id low high }
{
    u16::from_le_bytes([low, high]) < PAN_ID_LIMIT
}

// Whether the data of this type are a PAN ID.
pub fn has_pan_id(kind: u8) -> bool
    ensures { result ≡ has_pan_id kind }
{
    matches!(kind, SET_PAN_ID | RESPOND_PAN_ID)
}

// Whether data of this type hold no PAN ID that is too large.
pub fn pan_id_holds(kind: u8, content: &[u8]) -> bool
    ensures { result ≡ pan_id_holds kind content.now }
{
    match content {
        [low, high, ..] => !has_pan_id(kind) || fits_pan_id(*low, *high),
        // Data of another length are refused with 27, before their PAN ID is looked at.
        _ => true,
    }
}

// Accepts what a message of this type may hold, for the reader and the writer: 27 for its type or its length, then 28.
#[inline(always)]
pub fn validate(kind: u8, content: &[u8]) -> Result<(), Refusal>
    ensures { answer result ≡ validated kind content.now tt }
{
    if !fits(kind, content.len()) {
        return Err(Refusal::PacketContent);
    }
    if !pan_id_holds(kind, content) {
        return Err(Refusal::PanIdOver);
    }
    Ok(())
}
