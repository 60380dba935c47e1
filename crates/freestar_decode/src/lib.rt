// The reader of Wi.Freestar messages: document 02, Ask 11. `decode` accepts exactly a packet of the layout and says what it holds. It refuses
// any other block with 24, 25, 26, 27 or 28, in this order. `read_frame` has 24, 25 and 26 alone, for callers that serve other types.
#![tactic(auto)]

ghost use Rattle.std.specs.Prelude.{◌≡◌};
ghost use Rattle.refusal.specs.Numbers.{answer};
ghost use Rattle.freestar_packet.specs.Read.{read_frame, read_packet};

use freestar_packet::{END, Message, OVERHEAD, START, SUM_START};
use refusal::Refusal;

// Reads a block as exactly one packet, of whatever type.
#[tactic(auto, unfolding(freestar_packet::specs::Read::read_frame))]
pub fn read_frame(block: &[u8]) -> Result<Message, Refusal>
    ensures { answer result ≡ read_frame block.now }
{
    if !checksum::ends_hold(START, END, block) {
        return Err(Refusal::PacketEnds);
    }
    if block.len() < OVERHEAD as usize || block[1] as usize != block.len() {
        return Err(Refusal::PacketLength);
    }
    if !checksum::sum_holds(SUM_START, block) {
        return Err(Refusal::PacketSum);
    }
    Ok(Message {
        kind: block[2],
        data_length: block[1] - OVERHEAD,
    })
}

// Reads a block as exactly one message of the types that are served.
#[tactic(auto, using(freestar_packet::proofs::Frame::framed_ok), unfolding(freestar_packet::specs::Read::read_packet))]
pub fn decode(block: &[u8]) -> Result<Message, Refusal>
    ensures { answer result ≡ read_packet block.now }
{
    let message = read_frame(block)?;
    let content = message.content(block);
    freestar_packet::validate(message.kind, content)?;
    Ok(message)
}
