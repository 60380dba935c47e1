// Responses: document 01, "Frame" (answers). `write_frame` writes the frame, and has its payload written by the functions above it,
// which see only the part of the buffer behind the frame's first bytes.
ghost use Rattle.std.specs.Prelude.{◌∷◌, ◌++◌, ◌≤◌, length};
ghost use Rattle.logic.specs.Written.{Writes};
ghost use Rattle.cdi_frame.specs.Layout.{response_frame};
ghost use Rattle.cdi_command.specs.Payload.{response_payload, ack_response, no_error, response_buffer_min};

use cdi_command::{ACK_RESPONSE, NO_ERROR, READ, READ_NV, READ_NV_RESPONSE, READ_RESPONSE};
use cdi_frame::{LENGTH_BASE, START, SYNC};

// Writes the payload of the response to a read: its kind, the command's arguments and the value.
fn put_read(kind: u8, arguments: &[u8], value: &[u8], out: &mut [u8]) -> usize
    requires { length (kind ∷ arguments.now ++ value.now) ≤ length out.old }
    ensures { Writes (kind ∷ arguments.now ++ value.now) out.old out.new result }
{
    out[0] = kind;
    let start = 1 + byte_copy::copy(arguments, &mut out[1..]);
    start + byte_copy::copy(value, &mut out[start..])
}

// Writes the payload of the response to any other command: the command's own, behind two bytes.
fn put_ack(payload: &[u8], out: &mut [u8]) -> usize
    requires { length (ack_response ∷ no_error ∷ payload.now) ≤ length out.old }
    ensures { Writes (ack_response ∷ no_error ∷ payload.now) out.old out.new result }
{
    out[0] = ACK_RESPONSE;
    out[1] = NO_ERROR;
    2 + byte_copy::copy(payload, &mut out[2..])
}

// Writes the payload of the response to an accepted command, by the command's own payload and the value that it reads.
fn put_payload(payload: &[u8], value: &[u8], out: &mut [u8]) -> usize
    requires { (1 ≤ length payload.now) × (length (response_payload payload.now value.now) ≤ length out.old) }
    ensures { Writes (response_payload payload.now value.now) out.old out.new result }
{
    match payload[0] {
        READ => put_read(READ_RESPONSE, &payload[1..], value, out),
        READ_NV => put_read(READ_NV_RESPONSE, &payload[1..], value, out),
        _ => put_ack(payload, out),
    }
}

// The payload stands behind the start byte, the sync byte and the length byte. The reader of responses has the number too: neither crate uses the
// other.
const PAYLOAD_START: usize = 3;

// Writes the frame of the response to an accepted command over the front of `response`, and returns its length.
pub(crate) fn write_frame(payload: &[u8], value: &[u8], response: &mut [u8]) -> usize
    requires { (1 ≤ length payload.now) × (length (response_frame (response_payload payload.now value.now)) ≤ response_buffer_min) × (response_buffer_min ≤ length response.old) }
    ensures { Writes (response_frame (response_payload payload.now value.now)) response.old response.new result }
{
    let length = put_payload(payload, value, &mut response[PAYLOAD_START..]);
    response[0] = START;
    response[1] = SYNC;
    response[2] = LENGTH_BASE + length as u8;
    PAYLOAD_START + length
}
