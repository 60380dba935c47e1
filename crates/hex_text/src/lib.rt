// Lines of upper-case hex pairs parted by one space: document 01, "Examples". A line of a text is read into a block of at most 200 bytes,
// or into nothing, and its end is found.
#![tactic(auto)]

ghost use Rattle.std.specs.Prelude.{◌≡◌, true, ◌+◌, ◌*◌, ◌<◌, ◌≤◌, length};
ghost use Rattle.hex_text.specs.Scan.{is_block, spaced, is_line_end, last_pair, first_line};
ghost use Rattle.hex_text.specs.Hex.{is_digit, is_pair, pairs, line_feed, index_of, line_from, line_end, hex_line, hex_line_for, line_written};

use memchr::memchr;

// The most characters of a line of hex.
pub const LINE_MAX: usize = 600;

pub const SPACE: u8 = b' ';

pub const LINE_FEED: u8 = b'\n';

// Why a line gives no block.
#[derive(Clone, Copy)]
pub enum LineError {
    // It has any other form, or is too long.
    NotHex,
    // The buffer is too small for its block. 200 bytes are always enough.
    NoRoom,
}

// A line of a text: how many bytes its block has, which stand at the buffer's front, or why there is none; and the place of its line
// feed, or of the text's end where it has none. It has no slice of the buffer, which the caller lent and uses again.
#[derive(Clone, Copy)]
pub struct LineAt {
    pub line: Result<usize, LineError>,
    pub end: usize,
}

// A bit for each digit, whose place is what is left of the digit when it is divided by 32. By `matches!` the test is slower.
const DIGIT_BITS: u32 = 0x03FF007E;

fn is_digit(c: u8) -> bool
    ensures { result ≡ is_digit c }
{
    (b'0' <= c) & (c <= b'F') & ((DIGIT_BITS >> (c % 32)) % 2 == 1)
}

fn is_pair(high: u8, low: u8) -> bool
    ensures { result ≡ is_pair high low }
{
    is_digit(high) && is_digit(low)
}

// How many characters at the front of a text are pairs with a space after each.
fn skip_pairs(text: &[u8]) -> usize
    ensures { result ≡ spaced text.now }
{
    // By patterns of the slice, by chunks and by `position` the loop is slower.
    let mut i = 0;
    while text.len() - i > 2 {
        if text[i + 2] != SPACE {
            return i;
        }
        if !is_pair(text[i], text[i + 1]) {
            return i;
        }
        i += 3;
    }
    i
}

const ZERO: usize = b'0' as usize;

// The value of each digit, from `0` on. The characters between `9` and `A` are no digits.
const VALUES: [u8; 23] =
    *b"\x00\x01\x02\x03\x04\x05\x06\x07\x08\x09\0\0\0\0\0\0\0\x0A\x0B\x0C\x0D\x0E\x0F";

// Puts the bytes of a line of pairs over the front of `block`, which has room for them. How many they are has been found from the line's length, to see
// whether they fit.
fn decode(line: &[u8], count: usize, block: &mut [u8])
    requires { (is_block (pairs line.now) ≡ true) × (3 * count ≡ length line.now + 1) × (count ≤ length block.old) }
    ensures { block.new ≡ line_written (pairs line.now) block.old }
{
    let values = VALUES;
    // Over `line.chunks(3).enumerate()` the invariant would have to say of the iterator all that makes it go on.
    for n in 0..count {
        let high = values[line[3 * n] as usize - ZERO];
        let low = values[line[3 * n + 1] as usize - ZERO];
        block[n] = high * 16 + low;
    }
}

// Reads a line of pairs into the front of `block`, where it is not too long and its block fits.
fn read_pairs(line: &[u8], block: &mut [u8]) -> Result<usize, LineError>
    requires { is_block (pairs line.now) ≡ true }
    ensures { (result ≡ hex_line_for (hex_line line.now) (length block.old)) × (block.new ≡ line_written (hex_line line.now) block.old) }
{
    if line.len() > LINE_MAX {
        return Err(LineError::NotHex);
    }
    // The last pair has no space after it.
    let count = (line.len() + 1) / 3;
    if count > block.len() {
        return Err(LineError::NoRoom);
    }
    decode(line, count, block);
    Ok(count)
}

// Whether a line ends at the front of a text: a line feed stands there, or the text has ended.
fn is_line_end(text: &[u8]) -> bool
    ensures { result ≡ is_line_end text.now }
{
    matches!(text, [] | [LINE_FEED, ..])
}

// Whether the last pair of a line stands at the front of a text.
fn is_last_pair(text: &[u8]) -> bool
    ensures { result ≡ last_pair text.now }
{
    match text {
        [high, low, rest @ ..] => is_pair(*high, *low) && is_line_end(rest),
        _ => false,
    }
}

// The place of the first line feed of a text, or of the text's end where it has none.
fn find_line_feed(text: &[u8]) -> usize
    ensures { result ≡ index_of line_feed text.now }
{
    memchr(LINE_FEED, text).unwrap_or(text.len())
}

// Reads the first line of a text into the front of `block`, and finds where it ends.
fn read_line(text: &[u8], block: &mut [u8]) -> LineAt
    ensures { (result.end ≡ index_of line_feed text.now)
        × (result.line ≡ hex_line_for (hex_line (first_line text.now)) (length block.old))
        × (block.new ≡ line_written (hex_line (first_line text.now)) block.old) }
{
    let last = skip_pairs(text);
    let rest = &text[last..];
    if is_last_pair(rest) {
        let end = last + 2;
        let line = read_pairs(&text[..end], block);
        return LineAt { line, end };
    }
    let end = last + find_line_feed(rest);
    if end == 0 {
        return LineAt { line: Ok(0), end };
    }
    LineAt {
        line: Err(LineError::NotHex),
        end,
    }
}

// Reads the line of `text` that starts at `from` into the front of `block`, and finds where it ends. A line that is no block, or
// whose block does not fit, leaves the buffer as it was: nothing is written before the whole line is known to be good. Where
// `from` is past the end of the text, the line is empty and ends at the text's end.
pub fn read_line_at(text: &[u8], from: usize, block: &mut [u8]) -> LineAt
    ensures { (result.end ≡ line_end from text.now)
        × (result.line ≡ hex_line_for (hex_line (line_from from text.now)) (length block.old))
        × (block.new ≡ line_written (hex_line (line_from from text.now)) block.old) }
{
    match text.get(from..) {
        Some(rest) => {
            let read = read_line(rest, block);
            LineAt {
                line: read.line,
                end: from + read.end,
            }
        }
        None => LineAt {
            line: Ok(0),
            end: text.len(),
        },
    }
}
