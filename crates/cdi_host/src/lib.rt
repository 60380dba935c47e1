// The host's writer of command frames: document 01, "Command writer". `encode_command` refuses with 13, 14, then as the module does. The
// module reads what it writes as exactly that payload; the bytes after the frame stay.
#![tactic(auto)]

ghost use Rattle.std.specs.Prelude.{◌≡◌, ◌+◌, ◌≤◌, length, replicate};
ghost use Rattle.std.proofs.lemmas.List.Edits.{sets};
ghost use Rattle.logic.specs.Written.{Writes};
ghost use Rattle.refusal.specs.Numbers.{WritesIfAccepted};
ghost use Rattle.cdi_frame.specs.Frame.{command_wake_limit};
ghost use Rattle.cdi_frame.specs.Layout.{wake as wake_byte, command_prefix, command_frame};
ghost use Rattle.cdi_command.specs.Payload.{payload_max};
ghost use Rattle.cdi_host.specs.Encode.{frame_buffer_min, encode_command};

use cdi_frame::{LENGTH_BASE, START, SYNC, WAKE, WAKE_LIMIT};
use refusal::Refusal;

// The longest frame has 16 wake bytes, three bytes around them and 8 payload bytes.
pub const FRAME_BUFFER_MIN: usize = 27;

// Writes the wake bytes from the frame's second byte on.
fn write_wakes(wake: usize, frame: &mut [u8])
    requires { 1 + wake ≤ length frame.old }
    ensures { frame.new ≡ sets frame.old 1 (replicate wake wake_byte) }
{
    frame[1..=wake].fill(WAKE);
}

// Writes what stands before a payload of so many bytes: the first byte, the wake bytes, the sync byte and the length byte.
fn write_prefix(wake: usize, size: u8, frame: &mut [u8])
    requires { (wake ≤ command_wake_limit) × (size ≤ payload_max) × (frame_buffer_min ≤ length frame.old) }
    ensures { frame.new ≡ sets frame.old 0 (command_prefix wake size) }
{
    frame[0] = START;
    write_wakes(wake, frame);
    frame[wake + 1] = SYNC;
    frame[wake + 2] = LENGTH_BASE + size;
}

// Writes the frame of a payload over the front of `frame`.
fn write_frame(payload: &[u8], wake: usize, frame: &mut [u8]) -> usize
    requires { (wake ≤ command_wake_limit) × (length payload.now ≤ payload_max) × (frame_buffer_min ≤ length frame.old) }
    ensures { Writes (command_frame wake payload.now) frame.old frame.new result }
{
    write_prefix(wake, payload.len() as u8, frame);
    let start = wake + 3;
    byte_copy::copy(payload, &mut frame[start..]);
    start + payload.len()
}

// Writes a payload as the frame of a command, with so many wake bytes, over the front of `frame`. The payload is validated as
// the module does; the bytes after the frame stay, and on a refusal all of them.
#[tactic(auto, unfolding(crate::specs::Encode::encode_command))]
pub fn encode_command(payload: &[u8], wake: usize, frame: &mut [u8]) -> Result<usize, Refusal>
    ensures { WritesIfAccepted (encode_command payload.now wake (length frame.old)) frame.old frame.new result }
{
    if frame.len() < FRAME_BUFFER_MIN {
        return Err(Refusal::FrameBufferShort);
    }
    if wake > WAKE_LIMIT {
        return Err(Refusal::WakeCountOver);
    }
    cdi_command::validate_payload(payload)?;
    Ok(write_frame(payload, wake, frame))
}
