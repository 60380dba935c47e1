// The replay program: executes a log of command blocks, one to a line of hex, on a module as it leaves the factory, and prints
// what came of each. Document 01, "Examples".
//
// `replay_lines` has the text for the lines of an input. The program reads the input piece by piece, keeps what it has to of a line
// whose end is still to be read, and prints what is answered before it reads on.
#![tactic(auto)]

ghost use Rattle.std.specs.Prelude.{◌≡◌, ◌+◌, ◌<◌, ◌≤◌, true, false, length, take, drop, Ok, IfOk};
ghost use Rattle.replay_text.specs.Session.{kept_max, kept_of};
ghost use Rattle.logic.specs.Lists.{between};
ghost use Rattle.replay.specs.Program.{buffer_size, is_end, chars_after, Refilled, Turned};
ghost use Rattle.replay.specs.Ending.{first_session, Answered, done_of, printed_of, count_of, failed_of};
ghost use Rattle.replay.specs.Run.{Stops};

use cdi_state::ModuleState;
use hex_text::{LINE_FEED, LINE_MAX};
use replay_lines::PRINTED_MAX;
use std::io;
use std::io::{Print, Read, Stdin, Stdout};

const BUFFER_SIZE: usize = 65536;

// The most that is kept of a line whose end is still to be read. A line with one character too many stays too long whatever follows,
// so the rest of it need not be kept.
const KEPT_MAX: usize = LINE_MAX + 1;

// Standard input and output.
#[derive(Clone, Copy)]
struct Streams {
    input: Stdin,
    output: Stdout,
}

// What goes from one turn to the next: the state, which part of the input buffer is not answered yet, and whether the input has ended
// after it. The part is a place in a buffer of fixed length, since nothing is allocated; that the input has ended says nothing of another value.
// What is known of `start` and `end` stands in the contracts below: as an invariant it would have to hold between the two stores of a refill. So does what
// is known of the buffers' lengths: with arrays for slices, which was tried, the proofs of a turn did not close.
#[derive(Clone, Copy)]
struct Session {
    state: ModuleState,
    start: usize,
    end: usize,
    ended: bool,
}

impl Session {
    // A module as it leaves the factory, with nothing read.
    fn first() -> Session
        ensures { result ≡ first_session }
    {
        Session {
            state: ModuleState::factory(),
            start: 0,
            end: 0,
            ended: false,
        }
    }
}

// How a turn ends whose text is printed.
#[derive(Clone, Copy)]
enum Ending {
    // All is done.
    Done,
    // It did not read, since whole lines may be left.
    Full,
    // It read so many bytes, as the system counts them. If it read none, the input has ended.
    Read(usize),
}

impl Ending {
    fn is_done(self) -> bool
        ensures { result ≡ done_of (Ok self) }
    {
        matches!(self, Ending::Done)
    }
}

// What failed in a turn, and why.
#[derive(Clone, Copy)]
enum Failure {
    Print(io::Error),
    Read(io::Error),
}

// Moves input[from..end] to the front, as much of it as has to be kept, and returns how much that is.
fn keep(input: &mut [u8], from: usize, end: usize) -> usize
    requires { (from ≤ end) × (end ≤ length input.old) }
    ensures { (result ≤ kept_max) × (result ≤ length input.old)
        × (take result input.new ≡ kept_of (between from end input.old)) }
{
    let count = (end - from).min(KEPT_MAX);
    input.copy_within(from..from + count, 0);
    count
}

// How many characters there are after a read that followed the first `kept` of them. If the input has ended within a line, a line feed
// is added.
fn take_in(input: &mut [u8], kept: usize, count: usize) -> usize
    requires { (kept < length input.old) × (kept + count ≤ length input.old) }
    ensures { (result ≤ length input.old)
        × (take result input.new ≡ chars_after (take kept input.old) (take count (drop kept input.old)) (is_end count false)) }
{
    if count > 0 {
        return kept + count;
    }
    if kept == 0 {
        return 0;
    }
    input[kept] = LINE_FEED;
    kept + 1
}

// Reads once, into `input` after its first `kept` bytes.
fn read_input(streams: &mut Streams, input: &mut [u8], kept: usize) -> io::Result<usize>
    requires { kept ≤ length input.old }
    ensures { IfOk result (λ count. kept + count ≤ length input.old) × (take kept input.new ≡ take kept input.old) }
{
    streams.input.read(&mut input[kept..])
}

// Keeps what is left of the input, a line whose end is still to be read, at the front, and reads on after it.
fn refill(streams: &mut Streams, session: &mut Session, input: &mut [u8]) -> Result<Ending, Failure>
    requires { (length input.old ≡ buffer_size) × (session.old.start ≤ session.old.end) × (session.old.end ≤ buffer_size) × (session.old.ended ≡ false) }
    ensures { (session.new.state ≡ session.old.state) × (session.new.start ≡ 0) × (session.new.end ≤ buffer_size)
        × (session.new.ended ≡ is_end (count_of result) (failed_of result)) × (done_of result ≡ false) × (printed_of result ≡ true)
        × Refilled (kept_of (between session.old.start session.old.end input.old)) (take session.new.end input.new) (count_of result) (failed_of result) }
{
    let kept = keep(input, session.start, session.end);
    session.start = 0;
    session.end = kept;
    match read_input(streams, input, kept) {
        Ok(count) => {
            session.end = take_in(input, kept, count);
            session.ended = count == 0;
            Ok(Ending::Read(count))
        }
        Err(error) => Err(Failure::Read(error)),
    }
}

// Answers as many lines as there is room for, and returns how much of the output buffer their text takes.
fn answer(session: &mut Session, input: &[u8], output: &mut [u8]) -> usize
    requires { (length input.now ≡ buffer_size) × (length output.old ≡ buffer_size)
        × (session.old.start ≤ session.old.end) × (session.old.end ≤ buffer_size) }
    ensures within { result ≤ length output.new }
    ensures left { (session.new.start ≤ session.new.end) × (session.new.end ≡ session.old.end) × (session.new.ended ≡ session.old.ended) }
    ensures lines { Answered session.old.state (between session.old.start session.old.end input.now)
        output.new session.new.state (between session.new.start session.new.end input.now) result }
{
    let chars = &input[session.start..session.end];
    let progress = replay_lines::replay_lines(session.state, chars, output);
    session.state = progress.state;
    session.start += progress.consumed;
    progress.written
}

// Answers as many lines as there is room for, prints the responses, and reads on if no whole line is left. It prints before it reads,
// so that a user who types a line at a time sees each response before the next line. It is a call of its own, so that the session stays where it is: in
// the body of the loop the state would be taken apart into its bytes, and put together, at each turn.
#[inline(never)]
fn turn(
    streams: &mut Streams,
    session: &mut Session,
    input: &mut [u8],
    output: &mut [u8],
) -> Result<Ending, Failure>
    requires { (length input.old ≡ buffer_size) × (length output.old ≡ buffer_size)
        × (session.old.start ≤ session.old.end) × (session.old.end ≤ buffer_size) }
    ensures { (session.new.start ≤ session.new.end) × (session.new.end ≤ buffer_size)
        × Turned session.old.state (between session.old.start session.old.end input.old) session.old.ended
        output.new session.new.state (between session.new.start session.new.end input.new) session.new.ended
        (done_of result) (printed_of result) (count_of result) (failed_of result) }
{
    let written = answer(session, input, output);
    if let Err(error) = streams.output.write_all(&output[..written]) {
        return Err(Failure::Print(error));
    }
    // If the output is full, whole lines may be left. If not, only a line is left whose end is still to be read.
    let full = output.len() - written < PRINTED_MAX;
    if full {
        return Ok(Ending::Full);
    }
    if session.ended {
        return Ok(Ending::Done);
    }
    refill(streams, session, input)
}

// No run uses up so many turns.
const TURNS_MAX: u64 = u64::MAX;

// Runs turns from the first session until all is done, a print or a read fails, or the turns are used up, and returns how the last one
// ended. A proved loop has to end, and the input may never end, so the turns are counted.
fn replay(
    streams: &mut Streams,
    session: &mut Session,
    input: &mut [u8],
    output: &mut [u8],
) -> Result<Ending, Failure>
    requires { (length input.old ≡ buffer_size) × (length output.old ≡ buffer_size) × (session.old ≡ first_session) }
    ensures { Stops output.new session.new.state (between session.new.start session.new.end input.new) session.new.ended
        (done_of result) (printed_of result) (count_of result) (failed_of result) }
{
    let mut last = Ending::Full;
    for _turn in 0..TURNS_MAX {
        last = turn(streams, session, input, output)?;
        let done = last.is_done();
        if done {
            break;
        }
    }
    Ok(last)
}

// The system's words for an error, without the number that `Display` writes after them.
fn words(text: &str) -> &str {
    match text.split_once(" (os error ") {
        Some((words, _)) => words,
        None => text,
    }
}

// Says what went wrong and the system's reason, or only what went wrong where there is no memory for the reason.
fn explain(rt: &(impl Eprint + AllocGlobal), what: &str, error: io::Error) -> io::Result<()> {
    match format!(in rt.alloc(); "{error}") {
        Ok(text) => {
            let reason = words(text.as_str());
            eprintln!(rt; "replay: {what}: {reason}")
        }
        Err(_) => eprintln!(rt; "replay: {what}"),
    }
}

// Reports on standard error why the program stopped before all was done. No contract can say what is written, so
// `tests/test_replay.py` provokes each message, the last one in a program with two turns.
fn report(rt: &(impl Eprint + AllocGlobal), last: Result<Ending, Failure>) -> io::Result<()> {
    match last {
        Ok(Ending::Done) => Ok(()),
        Ok(_) => eprintln!(rt; "replay: stopped after 18446744073709551615 turns, with input left"),
        Err(Failure::Print(error)) => explain(rt, "standard output cannot be written", error),
        Err(Failure::Read(error)) => explain(rt, "standard input cannot be read", error),
    }
}

fn main(rt: HostRuntime) {
    let mut streams = Streams {
        input: rt.stdin(),
        output: rt.stdout(),
    };
    let mut input = [0u8; BUFFER_SIZE];
    let mut output = [0u8; BUFFER_SIZE];
    let mut session = Session::first();
    let last = replay(&mut streams, &mut session, &mut input, &mut output);
    // Where standard error cannot be written, nobody can be told.
    let _ = report(&rt, last);
}
