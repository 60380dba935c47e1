// The writers of Coyote XL packets: document 02, Ask 10. Each writes the packet of what it is given over the front of a buffer; the bytes after
// the packet stay. They refuse with 27, then 13 for a buffer that is shorter than this packet. What is written is read as exactly what
// was given.
#![tactic(auto)]

ghost use Rattle.std.specs.Prelude.{◌≡◌, ◌≤◌, length};
ghost use Rattle.std.specs.List.{sum_by};
ghost use Rattle.refusal.specs.Numbers.{in_room, WritesIfAccepted};
ghost use Rattle.coyote_packet.specs.Layout.{packet_bytes, addressed, read_mem, success, failure};
ghost use Rattle.coyote_encode.specs.Encode.{payload_max, joined, encode};

use coyote_packet::{
    ADDRESSED_END, DATA_MAX, END, FAILURE, FAILURE_CODE_MAX, OVERHEAD, PAYLOAD_START, READ_MEM,
    START, SUCCESS, SUM_START, TARGETS_END,
};
use refusal::Refusal;

// From where to where a packet with addresses goes: the group and the address of the source, and the targets, which are bytes: group and
// address in turn.
#[derive(Clone, Copy)]
pub struct Route<'a> {
    pub group: u8,
    pub address: u8,
    pub targets: &'a [u8],
}

// How many bytes the parts have together.
fn joined_length(parts: &[&[u8]]) -> usize
    requires { sum_by (λ part. length part.now) parts.now ≤ payload_max }
    ensures { result ≡ sum_by (λ part. length part.now) parts.now }
{
    parts.iter().map(|part| part.len()).sum()
}

// Writes the packet of a type and of a payload, whose parts lie one after the other in the packet.
fn write(kind: u8, payload: &[&[u8]], packet: &mut [u8]) -> Result<usize, Refusal>
    requires { sum_by (λ part. length part.now) payload.now ≤ payload_max }
    ensures { WritesIfAccepted (in_room (length packet.old) (packet_bytes kind (joined payload.now))) packet.old packet.new result }
{
    let size = joined_length(payload);
    if packet.len() < OVERHEAD + size {
        return Err(Refusal::FrameBufferShort);
    }
    let [low, high] = (size as u16).to_le_bytes();
    packet[0] = START;
    packet[1] = kind;
    packet[2] = low;
    packet[3] = high;
    let mut end = PAYLOAD_START;
    for part in payload {
        end += byte_copy::copy(part, &mut packet[end..]);
    }
    let sum = checksum::sum_from(SUM_START, &packet[0..end]);
    packet[end] = sum;
    packet[end + 1] = END;
    Ok(end + 2)
}

// Writes AckData, NoAckData or Ack, by its type. It becomes part of its callers, so that an export of a charge is compiled for data of three bytes.
#[inline(always)]
#[tactic(auto, unfolding(coyote_packet::specs::Layout::is_accepted, coyote_packet::specs::Layout::payload_of, crate::specs::Encode::encode))]
pub fn encode_addressed(
    kind: u8,
    route: Route,
    content: &[u8],
    packet: &mut [u8],
) -> Result<usize, Refusal>
    ensures { WritesIfAccepted (encode (addressed kind route.entry.group route.entry.address route.entry.targets.now content.now) (length packet.old)) packet.old packet.new result }
{
    if kind >= ADDRESSED_END
        || !coyote_packet::fits_targets(route.targets)
        || !coyote_packet::fits_data(kind, content.len())
    {
        return Err(Refusal::PacketContent);
    }
    let [low, high] = (content.len() as u16).to_le_bytes();
    let source = [route.group, route.address];
    let data_head = [TARGETS_END, low, high];
    write(kind, &[&source, route.targets, &data_head, content], packet)
}

// Writes a ReadMem for so many bytes of a memory space from an address on.
#[tactic(auto, unfolding(coyote_packet::specs::Layout::is_accepted, coyote_packet::specs::Layout::payload_of, crate::specs::Encode::encode))]
pub fn encode_read_memory(
    space: u8,
    address: u16,
    size: u16,
    packet: &mut [u8],
) -> Result<usize, Refusal>
    ensures { WritesIfAccepted (encode (read_mem space address size) (length packet.old)) packet.old packet.new result }
{
    if !coyote_packet::fits_memory(space, size) {
        return Err(Refusal::PacketContent);
    }
    write(
        READ_MEM,
        &[&[space], &address.to_le_bytes(), &size.to_le_bytes()],
        packet,
    )
}

// Writes a Success: the answer to a request of that type, with data.
#[tactic(auto, unfolding(coyote_packet::specs::Layout::is_accepted, coyote_packet::specs::Layout::payload_of, crate::specs::Encode::encode))]
pub fn encode_success(request: u8, content: &[u8], packet: &mut [u8]) -> Result<usize, Refusal>
    ensures { WritesIfAccepted (encode (success request content.now) (length packet.old)) packet.old packet.new result }
{
    if content.len() > DATA_MAX {
        return Err(Refusal::PacketContent);
    }
    let size = content.len() as u16;
    write(SUCCESS, &[&[request], &size.to_le_bytes(), content], packet)
}

// Writes a Failure: the answer to a request of that type, with its code.
#[tactic(auto, unfolding(coyote_packet::specs::Layout::is_accepted, coyote_packet::specs::Layout::payload_of, crate::specs::Encode::encode))]
pub fn encode_failure(request: u8, code: u8, packet: &mut [u8]) -> Result<usize, Refusal>
    ensures { WritesIfAccepted (encode (failure request code) (length packet.old)) packet.old packet.new result }
{
    if code > FAILURE_CODE_MAX {
        return Err(Refusal::PacketContent);
    }
    write(FAILURE, &[&[request, 1, 0, code]], packet)
}
