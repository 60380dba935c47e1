// The replay program's work without its reading and printing: the lines of an input executed on a module one after the other, and
// the text that is printed for them. Document 01, "Examples".
#![tactic(auto)]

ghost use Rattle.std.specs.Prelude.{◌≡◌, ◌≤◌, length};
ghost use Rattle.std.specs.Option.{IsSomeAnd};
ghost use Rattle.logic.specs.Written.{written};
ghost use Rattle.refusal.specs.Numbers.{answer, outcome_from};
ghost use Rattle.cdi_command.specs.Payload.{response_buffer_min};
ghost use Rattle.cdi_store.specs.Store.{state_for};
ghost use Rattle.replay_text.specs.Replay.{outcome_text, lines_text};
ghost use Rattle.replay_text.specs.Answered.{printed_max, answered};
ghost use Rattle.replay_lines.specs.Progress.{line_read, line_decision, decision_of, ReadWithin, ResponseWithin, Prints, decision_text, answer_text, progress};

use cdi_command::Command;
use cdi_module::RESPONSE_BUFFER_MIN;
use cdi_state::ModuleState;
use hex_text::{LINE_MAX, LineError};
use refusal::Refusal;

// The most bytes that a line of hex holds: each but the last takes two digits and a space.
const BLOCK_MAX: usize = (LINE_MAX + 1) / 3;

// The longest line that is printed is that of the longest response, whose last byte has a line feed for the space. No line is
// answered in less room.
pub const PRINTED_MAX: usize = 3 * RESPONSE_BUFFER_MIN;

// What came of the lines of an input: the state after them, how many of the input's bytes they are, with their line feeds, and how
// many bytes of the output are printed for them.
#[repr(C)]
#[derive(Clone, Copy)]
pub struct Progress {
    pub state: ModuleState,
    pub consumed: usize,
    pub written: usize,
}

// Writes what came of a block: its response, or the number of its refusal. The output is asked for its room once, before a line is answered: a type for
// a buffer with room would be taken apart again by what is called here.
fn write_outcome(outcome: Result<usize, Refusal>, response: &[u8], out: &mut [u8]) -> Option<usize>
    requires { ResponseWithin outcome (length response.now) × (length response.now ≡ response_buffer_min) × (printed_max ≤ length out.old) }
    ensures { IsSomeAnd result (Prints (outcome_text (outcome_from outcome).refusal (outcome_from outcome).length response.now) out.old out.new) }
{
    match outcome {
        Ok(length) => response_text::write_block(&response[..length], out),
        Err(refusal) => response_text::write_refused(refusal.number(), out),
    }
}

// Decides on a line that was read, whose bytes stand at the front of `block`. On a line that is not hex nothing is decided.
fn decide_line(
    valid: bool,
    line: Result<usize, LineError>,
    block: &[u8],
) -> Option<Result<Command, Refusal>>
    requires { ReadWithin line (length block.now) }
    ensures { decision_of result ≡ line_decision valid (line_read line block.now) }
{
    match line {
        Ok(count) => Some(cdi_module::decide(valid, RESPONSE_BUFFER_MIN, &block[..count])),
        Err(_) => None,
    }
}

// Responds to what was decided on a block, and writes what came of it over the front of `out`.
fn answer_block(
    state: ModuleState,
    decided: Result<Command, Refusal>,
    out: &mut [u8],
) -> Option<usize>
    requires { printed_max ≤ length out.old }
    ensures { IsSomeAnd result (Prints (decision_text state (answer decided)) out.old out.new) }
{
    let mut response = [0u8; RESPONSE_BUFFER_MIN];
    let outcome = cdi_module::respond(state, decided, &mut response);
    write_outcome(outcome, &response, out)
}

// Writes the answer to a line over the front of `out`, by what was decided on it.
fn write_answer(
    state: ModuleState,
    decided: Option<Result<Command, Refusal>>,
    out: &mut [u8],
) -> Option<usize>
    requires { printed_max ≤ length out.old }
    ensures { IsSomeAnd result (Prints (answer_text state decided) out.old out.new) }
{
    match decided {
        Some(decided) => answer_block(state, decided, out),
        None => response_text::write_not_hex(out),
    }
}

// Answers a line over the front of `out`, which has room for it, and returns how many bytes that is.
fn answer_line(
    state: ModuleState,
    decided: Option<Result<Command, Refusal>>,
    out: &mut [u8],
) -> usize
    requires { printed_max ≤ length out.old }
    ensures { Prints (answer_text state decided) out.old out.new result }
{
    write_answer(state, decided, out).unwrap()
}

// Stores what was decided in a state. It is kept out of the loop, so that the state stays in its place there.
#[inline(never)]
fn store(state: &mut ModuleState, decided: Result<Command, Refusal>)
    ensures { state.new ≡ state_for state.old (answer decided) }
{
    *state = cdi_store::store(*state, decided);
}

// Answers the lines of `input` that a line feed ends, from the first on, over the front of `output`, each as long as there is room
// for the longest. No line changes whether the state is valid, so that is asked once. What stands behind the last line feed is left, and
// so are the bytes of `output` behind the text.
pub fn replay_lines(state: ModuleState, input: &[u8], output: &mut [u8]) -> Progress
    ensures { (result ≡ progress state (answered state input.now (length output.old)))
        × (output.new ≡ written output.old (lines_text state (answered state input.now (length output.old)))) }
{
    let state = state.array_lengths();
    let valid = cdi_valid::is_valid(state);
    let mut current = state;
    let mut used = 0;
    let mut start = 0;
    let mut block = [0u8; BLOCK_MAX];
    loop {
        let read = hex_text::read_line_at(input, start, &mut block);
        let room = output.len() - used;
        if read.end >= input.len() || room < PRINTED_MAX {
            return Progress {
                state: current,
                consumed: start,
                written: used,
            };
        }
        let decided = decide_line(valid, read.line, &block);
        let printed = answer_line(current, decided, &mut output[used..]);
        if let Some(decided) = decided
            && cdi_store::stores(decided)
        {
            store(&mut current, decided);
        }
        used += printed;
        start = read.end + 1;
    }
}
