// Functions that no C entry shows, with the C ABI, for the tests that compare them with an independent implementation. It adds nothing:
// each function hands its arguments on and turns an enum into numbers.
#![tactic(auto)]

ghost use Rattle.std.specs.Prelude.{◌≡◌, length};
ghost use Rattle.logic.specs.Written.{written, length_in, written_in};
ghost use Rattle.hex_text.specs.Hex.{line_from, line_end, hex_line, hex_line_for, line_written};
ghost use Rattle.response_text.specs.Text.{text_in_hex, refused_text, not_hex_text, printed};
ghost use Rattle.cdi_state.specs.State.{input_offset};
ghost use Rattle.replay_text.specs.Replay.{lines_text};
ghost use Rattle.replay_text.specs.Answered.{answered};
ghost use Rattle.replay_lines.specs.Progress.{progress};
ghost use Rattle.probe.specs.Probe.{line_probe};

use cdi_state::{AnalogInput, ModuleState};
use hex_text::LineError;
use replay_lines::Progress;

// The answers to a line: a block, ...
const BLOCK: u8 = 0;
// ... a line of any other form, ...
const NOT_HEX: u8 = 1;
// ... a block that the buffer is too small for.
const NO_ROOM: u8 = 2;

// The answer to a line, the block's length, 0 where there is no block, and the place where the line ends.
#[repr(C)]
#[derive(Clone, Copy)]
pub struct LineProbe {
    pub answer: u8,
    pub length: usize,
    pub end: usize,
}

// The offset of an input as a signed number.
#[unsafe(no_mangle)]
pub extern "C" fn probe_signed_offset(input: AnalogInput) -> i16
    ensures { result ≡ input_offset input }
{
    input.signed_offset()
}

// Reads the line of `text` that starts at `from` into the front of `block`.
#[unsafe(no_mangle)]
pub extern "C" fn probe_read_line_at(text: &[u8], from: usize, block: &mut [u8]) -> LineProbe
    ensures { (result ≡ line_probe (hex_line_for (hex_line (line_from from text.now)) (length block.old)) (line_end from text.now))
        × (block.new ≡ line_written (hex_line (line_from from text.now)) block.old) }
{
    let read = hex_text::read_line_at(text, from, block);
    let (answer, length) = match read.line {
        Ok(length) => (BLOCK, length),
        Err(LineError::NotHex) => (NOT_HEX, 0),
        Err(LineError::NoRoom) => (NO_ROOM, 0),
    };
    LineProbe {
        answer,
        length,
        end: read.end,
    }
}

// Writes bytes as a line of hex over the front of `out`, and returns how many bytes that is, 0 where there is no room.
#[tactic(auto, using(crate::proofs::Counted::counted))]
#[unsafe(no_mangle)]
pub extern "C" fn probe_write_block(bytes: &[u8], out: &mut [u8]) -> usize
    ensures { (result ≡ length_in out.old (printed (text_in_hex bytes.now))) × (out.new ≡ written_in out.old (printed (text_in_hex bytes.now))) }
{
    response_text::write_block(bytes, out).unwrap_or(0)
}

// Writes the line of a refusal in the same way.
#[tactic(auto, using(crate::proofs::Counted::counted))]
#[unsafe(no_mangle)]
pub extern "C" fn probe_write_refused(number: u8, out: &mut [u8]) -> usize
    ensures { (result ≡ length_in out.old (printed (refused_text number))) × (out.new ≡ written_in out.old (printed (refused_text number))) }
{
    response_text::write_refused(number, out).unwrap_or(0)
}

// Writes the line that stands for a line that is not hex in the same way.
#[tactic(auto, using(crate::proofs::Counted::counted))]
#[unsafe(no_mangle)]
pub extern "C" fn probe_write_not_hex(out: &mut [u8]) -> usize
    ensures { (result ≡ length_in out.old (printed not_hex_text)) × (out.new ≡ written_in out.old (printed not_hex_text)) }
{
    response_text::write_not_hex(out).unwrap_or(0)
}

// Answers the whole lines of `input` from a state on, over the front of `output`.
#[unsafe(no_mangle)]
pub extern "C" fn probe_replay_lines(
    state: ModuleState,
    input: &[u8],
    output: &mut [u8],
) -> Progress
    ensures { (result ≡ progress state (answered state input.now (length output.old)))
        × (output.new ≡ written output.old (lines_text state (answered state input.now (length output.old)))) }
{
    replay_lines::replay_lines(state, input, output)
}
