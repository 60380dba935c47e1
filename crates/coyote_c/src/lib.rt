// The entries of include/coyote.h, which says what each reads and writes. No enum crosses the C boundary. `coyote_exports` has each under
// the name that C calls. A contract speaks of outcome and buffer apart, since C is told a struct and no `Result`.
#![tactic(auto, using(refusal::proofs::Told::outcome_told))]

ghost use Rattle.std.specs.Prelude.{◌≡◌, length};
ghost use Rattle.refusal.specs.Refusal.{outcome_of, buffer_after};
ghost use Rattle.refusal.specs.Numbers.{answer};
ghost use Rattle.coyote_packet.specs.Layout.{addressed, read_mem, success, failure};
ghost use Rattle.coyote_packet.specs.Read.{read_packet};
ghost use Rattle.coyote_encode.specs.Encode.{encode};
ghost use Rattle.coyote_charge.specs.Charge.{charge, export_charge, import_charge};
ghost use Rattle.coyote_fields.specs.Fields.{fields_of};
ghost use Rattle.coyote_c.specs.Fields.{charge_fields};

use cdi_item::InputNumber;
use coyote_charge::Charge;
use coyote_encode::Route;
use coyote_fields::PacketFields;
use refusal::{NONE, Outcome, Refusal};

// What was imported from a block: coyote_charge of the header.
#[repr(C)]
#[derive(Clone, Copy, Default)]
pub struct ChargeFields {
    pub refusal: u8,
    pub input: u8,
    pub readout: u16,
}

impl From<Result<Charge, Refusal>> for ChargeFields {
    ghost from_gives = { λ imported fields. fields ≡ charge_fields (answer imported) };

    fn from(imported: Result<Charge, Refusal>) -> ChargeFields {
        match imported {
            Ok(found) => ChargeFields {
                refusal: NONE,
                input: found.input.0,
                readout: found.readout,
            },
            Err(refusal) => ChargeFields {
                refusal: refusal.number(),
                ..ChargeFields::default()
            },
        }
    }
}

// Reads a block as one packet.
pub fn coyote_decode(block: &[u8]) -> PacketFields
    ensures { result ≡ fields_of (read_packet block.now) }
{
    coyote_fields::decode_fields(block)
}

// Writes AckData, NoAckData or Ack, by its type.
pub fn coyote_encode_addressed(
    kind: u8,
    group: u8,
    address: u8,
    targets: &[u8],
    content: &[u8],
    packet: &mut [u8],
) -> Outcome
    ensures { (result ≡ outcome_of (encode (addressed kind group address targets.now content.now) (length packet.old)))
        × (packet.new ≡ buffer_after (encode (addressed kind group address targets.now content.now) (length packet.old)) packet.old) }
{
    let route = Route {
        group,
        address,
        targets,
    };
    coyote_encode::encode_addressed(kind, route, content, packet).into()
}

// Writes ReadMem.
pub fn coyote_encode_read_memory(space: u8, address: u16, size: u16, packet: &mut [u8]) -> Outcome
    ensures { (result ≡ outcome_of (encode (read_mem space address size) (length packet.old)))
        × (packet.new ≡ buffer_after (encode (read_mem space address size) (length packet.old)) packet.old) }
{
    coyote_encode::encode_read_memory(space, address, size, packet).into()
}

// Writes Success.
pub fn coyote_encode_success(request: u8, content: &[u8], packet: &mut [u8]) -> Outcome
    ensures { (result ≡ outcome_of (encode (success request content.now) (length packet.old)))
        × (packet.new ≡ buffer_after (encode (success request content.now) (length packet.old)) packet.old) }
{
    coyote_encode::encode_success(request, content, packet).into()
}

// Writes Failure.
pub fn coyote_encode_failure(request: u8, code: u8, packet: &mut [u8]) -> Outcome
    ensures { (result ≡ outcome_of (encode (failure request code) (length packet.old)))
        × (packet.new ≡ buffer_after (encode (failure request code) (length packet.old)) packet.old) }
{
    coyote_encode::encode_failure(request, code, packet).into()
}

// Writes the charge of an analog input as NoAckData.
pub fn coyote_export_charge(
    sequence: u8,
    group: u8,
    address: u8,
    targets: &[u8],
    input: u8,
    readout: u16,
    packet: &mut [u8],
) -> Outcome
    ensures { (result ≡ outcome_of (export_charge sequence group address targets.now (charge input readout) (length packet.old)))
        × (packet.new ≡ buffer_after (export_charge sequence group address targets.now (charge input readout) (length packet.old)) packet.old) }
{
    let exported = Charge {
        input: InputNumber(input),
        readout,
    };
    let route = Route {
        group,
        address,
        targets,
    };
    coyote_charge::export_charge(sequence, route, exported, packet).into()
}

// Reads a block as the packet of a charge.
pub fn coyote_import_charge(block: &[u8]) -> ChargeFields
    ensures { result ≡ charge_fields (import_charge block.now) }
{
    coyote_charge::import_charge(block).into()
}
