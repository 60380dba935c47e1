// What was read from a block as one struct of numbers, for callers that no enum reaches, as those in C are. Fields that the packet does not have
// are 0, and after a refusal all are.
#![tactic(auto)]

ghost use Rattle.std.specs.Prelude.{◌≡◌, ◌≤◌};
ghost use Rattle.refusal.specs.Numbers.{answer};
ghost use Rattle.coyote_packet.specs.Layout.{ack_type};
ghost use Rattle.coyote_packet.specs.Read.{read_packet};
ghost use Rattle.coyote_packet.specs.Laws.{AddressedSmall, Small};
ghost use Rattle.coyote_fields.specs.Fields.{addressed_fields, packet_fields, fields_read, fields_of};

use coyote_packet::{ACK, ACK_DATA, Addressed, FAILURE, NO_ACK_DATA, Packet, READ_MEM, SUCCESS};
use refusal::Refusal;

// The number of the refusal or 0, and the packet's type and fields.
#[repr(C)]
#[derive(Clone, Copy, Default)]
pub struct PacketFields {
    pub refusal: u8,
    pub kind: u8,
    pub source_group: u8,
    pub source_address: u8,
    pub target_count: u8,
    pub memory_space: u8,
    pub request_type: u8,
    pub failure_code: u8,
    pub memory_address: u16,
    pub memory_length: u16,
    pub data_start: u16,
    pub data_length: u16,
}

// AckData, NoAckData and Ack, each with its first type.
fn addressed_fields(kind: u8, packet: Addressed) -> PacketFields
    requires { (kind ≤ ack_type) × AddressedSmall packet }
    ensures { result ≡ addressed_fields kind packet }
{
    PacketFields {
        kind: kind + packet.sequence,
        source_group: packet.source_group,
        source_address: packet.source_address,
        target_count: packet.target_count as u8,
        data_start: packet.data_start as u16,
        data_length: packet.data_length as u16,
        ..PacketFields::default()
    }
}

// The fields of a packet that was read. This is no `From`, which would have to promise something of sequence numbers that no packet has.
fn packet_fields(packet: Packet) -> PacketFields
    requires { Small packet }
    ensures { result ≡ packet_fields packet }
{
    match packet {
        Packet::AckData(data) => addressed_fields(ACK_DATA, data),
        Packet::NoAckData(data) => addressed_fields(NO_ACK_DATA, data),
        Packet::Ack(data) => addressed_fields(ACK, data),
        Packet::ReadMem(read) => PacketFields {
            kind: READ_MEM,
            memory_space: read.space,
            memory_address: read.address,
            memory_length: read.length,
            ..PacketFields::default()
        },
        Packet::Success(answer) => PacketFields {
            kind: SUCCESS,
            request_type: answer.request_type,
            data_start: answer.data_start as u16,
            data_length: answer.data_length as u16,
            ..PacketFields::default()
        },
        Packet::Failure(answer) => PacketFields {
            kind: FAILURE,
            request_type: answer.request_type,
            failure_code: answer.code,
            ..PacketFields::default()
        },
    }
}

// Reads a block as exactly one packet, for callers in the source: a refusal is no struct of numbers here.
pub fn read_fields(block: &[u8]) -> Result<PacketFields, Refusal>
    ensures { answer result ≡ fields_read (read_packet block.now) }
{
    let packet = coyote_decode::decode(block)?;
    Ok(packet_fields(packet))
}

// Reads a block as exactly one packet.
pub fn decode_fields(block: &[u8]) -> PacketFields
    ensures { result ≡ fields_of (read_packet block.now) }
{
    match read_fields(block) {
        Ok(fields) => fields,
        Err(refusal) => PacketFields {
            refusal: refusal.number(),
            ..PacketFields::default()
        },
    }
}
