// The writer of Wi.Freestar messages: document 02, Ask 11. It writes the packet of a type and data over the front of a buffer; the bytes after
// the packet stay. It refuses with 27, 28, then 13 for a buffer that is shorter than this packet. What is written is read as exactly what
// was given.
#![tactic(auto)]

ghost use Rattle.std.specs.Prelude.{◌≡◌, ◌+◌, ◌≤◌, length};
ghost use Rattle.logic.specs.Written.{Writes};
ghost use Rattle.refusal.specs.Numbers.{WritesIfAccepted};
ghost use Rattle.freestar_packet.specs.Layout.{overhead, packet_bytes};
ghost use Rattle.freestar_packet.specs.Encode.{encode};
ghost use Rattle.freestar_packet.specs.Laws.{data_max};

use freestar_packet::{DATA_START, END, OVERHEAD, START, SUM_START};
use refusal::Refusal;

// Writes the packet of a type and data, and returns its length.
fn put_packet(kind: u8, content: &[u8], packet: &mut [u8]) -> usize
    requires { (length content.now ≤ data_max) × (overhead + length content.now ≤ length packet.old) }
    ensures { Writes (packet_bytes kind content.now) packet.old packet.new result }
{
    packet[0] = START;
    packet[1] = OVERHEAD + content.len() as u8;
    packet[2] = kind;
    let sum_at = DATA_START + byte_copy::copy(content, &mut packet[DATA_START..]);
    let sum = checksum::sum_from(SUM_START, &packet[0..sum_at]);
    packet[sum_at] = sum;
    packet[sum_at + 1] = END;
    sum_at + 2
}

// Writes a message of a type that is served.
#[inline(always)]
#[tactic(auto, using(freestar_packet::proofs::Types::fits_small, freestar_packet::proofs::Frame::packet_length_lem, freestar_packet::proofs::Frame::validated_ok, freestar_packet::proofs::Frame::validated_err), unfolding(freestar_packet::specs::Encode::encode))]
pub fn encode(kind: u8, content: &[u8], packet: &mut [u8]) -> Result<usize, Refusal>
    ensures { WritesIfAccepted (encode kind content.now (length packet.old)) packet.old packet.new result }
{
    freestar_packet::validate(kind, content)?;
    if packet.len() < OVERHEAD as usize + content.len() {
        return Err(Refusal::FrameBufferShort);
    }
    Ok(put_packet(kind, content, packet))
}
