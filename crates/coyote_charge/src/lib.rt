// The charge of a pack between the yards: document 02, Ask 10. `export_charge` writes an analog input's number and readout as a NoAckData
// packet, and `import_charge` gives both back. The number is an `InputNumber`, so no slot index can take its place.
#![tactic(auto)]

ghost use Rattle.std.specs.Prelude.{◌≡◌, ◌+◌, ◌≤◌, length};
ghost use Rattle.refusal.specs.Numbers.{answer, WritesIfAccepted};
ghost use Rattle.coyote_charge.specs.Charge.{export_charge, charge_from, import_charge};

use cdi_item::InputNumber;
use coyote_encode::Route;
use coyote_packet::{ACK, NO_ACK_DATA, SEQUENCES};
use refusal::Refusal;

// An analog input and its 16-bit readout.
#[derive(Clone, Copy)]
pub struct Charge {
    pub input: InputNumber,
    pub readout: u16,
}

// Writes the charge of an input as NoAckData with this sequence number.
#[tactic(auto, unfolding(crate::specs::Charge::export_charge))]
pub fn export_charge(
    sequence: u8,
    route: Route,
    charge: Charge,
    packet: &mut [u8],
) -> Result<usize, Refusal>
    ensures { WritesIfAccepted (export_charge sequence route.entry.group route.entry.address route.entry.targets.now charge (length packet.old)) packet.old packet.new result }
{
    let input = charge.input.0;
    if sequence >= SEQUENCES || !cdi_item::is_input_number(input) {
        return Err(Refusal::PacketContent);
    }
    let [high, low] = charge.readout.to_be_bytes();
    let content = [input, high, low];
    coyote_encode::encode_addressed(NO_ACK_DATA + sequence, route, &content, packet)
}

// The charge in data of so many bytes from a place on: the input's number and the readout, high byte first. The definition is about their place
// in the block too.
fn read_charge(block: &[u8], start: usize, size: usize) -> Result<Charge, Refusal>
    requires { start + size ≤ length block.now }
    ensures { answer result ≡ charge_from block.now start size }
{
    match &block[start..start + size] {
        [input, high, low] if cdi_item::is_input_number(*input) => Ok(Charge {
            input: InputNumber(*input),
            readout: u16::from_be_bytes([*high, *low]),
        }),
        _ => Err(Refusal::PacketContent),
    }
}

// Reads a block as the packet of a charge.
#[tactic(auto, using(crate::proofs::ByFields::handed_on))]
pub fn import_charge(block: &[u8]) -> Result<Charge, Refusal>
    ensures { answer result ≡ import_charge block.now }
{
    let fields = coyote_fields::read_fields(block)?;
    match fields.kind {
        NO_ACK_DATA..ACK => read_charge(
            block,
            fields.data_start as usize,
            fields.data_length as usize,
        ),
        _ => Err(Refusal::PacketContent),
    }
}
