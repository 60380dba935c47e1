// The entries of include/coyote.h, under the names that it declares. Each hands its arguments on to the function of the same name in
// `coyote_c` and promises what that promises: a static library can't be used by another crate, and the examples use that library.
#![tactic(auto)]

ghost use Rattle.std.specs.Prelude.{◌≡◌, length};
ghost use Rattle.refusal.specs.Refusal.{outcome_of, buffer_after};
ghost use Rattle.coyote_packet.specs.Layout.{addressed, read_mem, success, failure};
ghost use Rattle.coyote_packet.specs.Read.{read_packet};
ghost use Rattle.coyote_encode.specs.Encode.{encode};
ghost use Rattle.coyote_charge.specs.Charge.{charge, export_charge, import_charge};
ghost use Rattle.coyote_fields.specs.Fields.{fields_of};
ghost use Rattle.coyote_c.specs.Fields.{charge_fields};

use coyote_c::ChargeFields;
use coyote_fields::PacketFields;
use refusal::Outcome;

// Reads a block as one packet.
#[unsafe(no_mangle)]
pub extern "C" fn coyote_decode(block: &[u8]) -> PacketFields
    ensures { result ≡ fields_of (read_packet block.now) }
{
    coyote_c::coyote_decode(block)
}

// Writes AckData, NoAckData or Ack, by its type.
#[unsafe(no_mangle)]
pub extern "C" fn coyote_encode_addressed(
    kind: u8,
    group: u8,
    address: u8,
    targets: &[u8],
    content: &[u8],
    packet: &mut [u8],
) -> Outcome
    ensures { (result ≡ outcome_of (encode (addressed kind group address targets.now content.now) (length packet.old)))
        × (packet.new ≡ buffer_after (encode (addressed kind group address targets.now content.now) (length packet.old)) packet.old) }
{
    coyote_c::coyote_encode_addressed(kind, group, address, targets, content, packet)
}

// Writes ReadMem.
#[unsafe(no_mangle)]
pub extern "C" fn coyote_encode_read_memory(
    space: u8,
    address: u16,
    size: u16,
    packet: &mut [u8],
) -> Outcome
    ensures { (result ≡ outcome_of (encode (read_mem space address size) (length packet.old)))
        × (packet.new ≡ buffer_after (encode (read_mem space address size) (length packet.old)) packet.old) }
{
    coyote_c::coyote_encode_read_memory(space, address, size, packet)
}

// Writes Success.
#[unsafe(no_mangle)]
pub extern "C" fn coyote_encode_success(request: u8, content: &[u8], packet: &mut [u8]) -> Outcome
    ensures { (result ≡ outcome_of (encode (success request content.now) (length packet.old)))
        × (packet.new ≡ buffer_after (encode (success request content.now) (length packet.old)) packet.old) }
{
    coyote_c::coyote_encode_success(request, content, packet)
}

// Writes Failure.
#[unsafe(no_mangle)]
pub extern "C" fn coyote_encode_failure(request: u8, code: u8, packet: &mut [u8]) -> Outcome
    ensures { (result ≡ outcome_of (encode (failure request code) (length packet.old)))
        × (packet.new ≡ buffer_after (encode (failure request code) (length packet.old)) packet.old) }
{
    coyote_c::coyote_encode_failure(request, code, packet)
}

// Writes the charge of an analog input as NoAckData.
#[unsafe(no_mangle)]
pub extern "C" fn coyote_export_charge(
    sequence: u8,
    group: u8,
    address: u8,
    targets: &[u8],
    input: u8,
    readout: u16,
    packet: &mut [u8],
) -> Outcome
    ensures { (result ≡ outcome_of (export_charge sequence group address targets.now (charge input readout) (length packet.old)))
        × (packet.new ≡ buffer_after (export_charge sequence group address targets.now (charge input readout) (length packet.old)) packet.old) }
{
    coyote_c::coyote_export_charge(sequence, group, address, targets, input, readout, packet)
}

// Reads a block as the packet of a charge.
#[unsafe(no_mangle)]
pub extern "C" fn coyote_import_charge(block: &[u8]) -> ChargeFields
    ensures { result ≡ charge_fields (import_charge block.now) }
{
    coyote_c::coyote_import_charge(block)
}
