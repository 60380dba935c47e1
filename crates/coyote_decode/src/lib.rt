// The reader of Coyote XL packets: document 02, Ask 10. `decode` accepts exactly a packet of the layout and says what it holds. It refuses any
// other block with 24, 25, 26 or 27, in this order.
#![tactic(auto)]

ghost use Rattle.std.specs.Prelude.{◌≡◌};
ghost use Rattle.refusal.specs.Numbers.{answer};
ghost use Rattle.coyote_packet.specs.Read.{addressed_case, read_addressed, read_memory, read_success, read_failure, read_payload, read_packet};

use coyote_packet::{
    ACK, ADDRESSED_END, Addressed, DATA_MAX, END, FAILURE, FAILURE_CODE_MAX, Failed, MemoryRead,
    NO_ACK_DATA, PAYLOAD_START, Packet, READ_MEM, SEQUENCES, SOURCE_LENGTH, START, SUCCESS,
    SUCCESS_HEAD, SUM_START, Succeeded, TARGETS_END, TARGETS_MAX, TARGETS_TAIL,
};
use refusal::Refusal;

// The case of a packet with addresses.
fn addressed_case(kind: u8, fields: Addressed) -> Packet
    ensures { result ≡ addressed_case kind fields }
{
    match kind {
        ..NO_ACK_DATA => Packet::AckData(fields),
        NO_ACK_DATA..ACK => Packet::NoAckData(fields),
        _ => Packet::Ack(fields),
    }
}

// AckData, NoAckData and Ack: the source, the targets, 80, the length of the data, the data.
#[tactic(auto, unfolding(coyote_packet::specs::Read::read_addressed))]
fn read_addressed(kind: u8, payload: &[u8]) -> Result<Packet, Refusal>
    ensures { answer result ≡ read_addressed kind payload.now }
{
    let [source_group, source_address, rest @ ..] = payload else {
        return Err(Refusal::PacketContent);
    };
    let count = coyote_packet::count_targets(TARGETS_MAX + 1, rest);
    if !(1..=TARGETS_MAX as usize).contains(&count) {
        return Err(Refusal::PacketContent);
    }
    let end = 2 * count;
    let Some([TARGETS_END, low, high, data @ ..]) = rest.get(end..) else {
        return Err(Refusal::PacketContent);
    };
    let size = u16::from_le_bytes([*low, *high]) as usize;
    if data.len() != size || !coyote_packet::fits_data(kind, data.len()) {
        return Err(Refusal::PacketContent);
    }
    let fields = Addressed {
        sequence: kind % SEQUENCES,
        source_group: *source_group,
        source_address: *source_address,
        target_count: count,
        data_start: PAYLOAD_START + SOURCE_LENGTH + end + TARGETS_TAIL,
        data_length: size,
    };
    Ok(addressed_case(kind, fields))
}

// ReadMem: the memory space, the address and how many bytes are asked for.
#[tactic(auto, unfolding(coyote_packet::specs::Read::read_memory))]
fn read_memory(payload: &[u8]) -> Result<Packet, Refusal>
    ensures { answer result ≡ read_memory payload.now }
{
    let [space, address_low, address_high, length_low, length_high] = payload else {
        return Err(Refusal::PacketContent);
    };
    let length = u16::from_le_bytes([*length_low, *length_high]);
    if !coyote_packet::fits_memory(*space, length) {
        return Err(Refusal::PacketContent);
    }
    Ok(Packet::ReadMem(MemoryRead {
        space: *space,
        address: u16::from_le_bytes([*address_low, *address_high]),
        length,
    }))
}

// Success: the type of the request, the length of the data, the data.
#[tactic(auto, unfolding(coyote_packet::specs::Read::read_success))]
fn read_success(payload: &[u8]) -> Result<Packet, Refusal>
    ensures { answer result ≡ read_success payload.now }
{
    let [request_type, low, high, data @ ..] = payload else {
        return Err(Refusal::PacketContent);
    };
    let size = u16::from_le_bytes([*low, *high]) as usize;
    if data.len() != size || data.len() > DATA_MAX {
        return Err(Refusal::PacketContent);
    }
    Ok(Packet::Success(Succeeded {
        request_type: *request_type,
        data_start: PAYLOAD_START + SUCCESS_HEAD,
        data_length: size,
    }))
}

// Failure: the type of the request, the length 1, the code.
#[tactic(auto, unfolding(coyote_packet::specs::Read::read_failure))]
fn read_failure(payload: &[u8]) -> Result<Packet, Refusal>
    ensures { answer result ≡ read_failure payload.now }
{
    match payload {
        [request_type, 1, 0, code] if *code <= FAILURE_CODE_MAX => Ok(Packet::Failure(Failed {
            request_type: *request_type,
            code: *code,
        })),
        _ => Err(Refusal::PacketContent),
    }
}

// The payload of a packet, by the packet's type.
#[tactic(auto, unfolding(coyote_packet::specs::Read::read_payload))]
fn read_payload(kind: u8, payload: &[u8]) -> Result<Packet, Refusal>
    ensures { answer result ≡ read_payload kind payload.now }
{
    match kind {
        ..ADDRESSED_END => read_addressed(kind, payload),
        READ_MEM => read_memory(payload),
        SUCCESS => read_success(payload),
        FAILURE => read_failure(payload),
        _ => Err(Refusal::PacketContent),
    }
}

// Reads a block as exactly one packet.
#[tactic(auto, unfolding(coyote_packet::specs::Read::read_packet))]
pub fn decode(block: &[u8]) -> Result<Packet, Refusal>
    ensures { answer result ≡ read_packet block.now }
{
    if !checksum::ends_hold(START, END, block) {
        return Err(Refusal::PacketEnds);
    }
    let [_, kind, low, high, payload @ .., _, _] = block else {
        return Err(Refusal::PacketLength);
    };
    if payload.len() != u16::from_le_bytes([*low, *high]) as usize {
        return Err(Refusal::PacketLength);
    }
    if !checksum::sum_holds(SUM_START, block) {
        return Err(Refusal::PacketSum);
    }
    read_payload(*kind, payload)
}
