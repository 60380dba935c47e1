// The lines that the replay program prints: document 01, "Examples". Each function writes one line over the front of a buffer if it
// fits, and nothing if it does not. A block of at most 200 bytes that is written is read back.
#![tactic(auto)]

ghost use Rattle.std.specs.Prelude.{◌≡◌, [], ◌∷◌, ◌+◌, ◌*◌, ◌/◌, ◌%◌, ◌<◌, ◌≤◌, length};
ghost use Rattle.std.proofs.lemmas.List.Edits.{sets};
ghost use Rattle.logic.specs.Written.{written, written_in};
ghost use Rattle.response_text.specs.Text.{digit_of, text_in_hex, refused_text, not_hex_text, printed, count_in};

use hex_text::{LINE_FEED, SPACE};

const DIGITS: [u8; 16] = *b"0123456789ABCDEF";

// Writes a byte's two digits and the character after them, from `at` on. The place is a number, for the contract says of the whole buffer what is
// written: over parts of it the caller would have to put them together again.
fn write_pair(byte: u8, after: u8, out: &mut [u8], at: usize)
    requires { at + 3 ≤ length out.old }
    ensures { out.new ≡ sets out.old at (digit_of (byte / 16) ∷ digit_of (byte % 16) ∷ after ∷ []) }
{
    out[at] = DIGITS[(byte / 16) as usize];
    out[at + 1] = DIGITS[(byte % 16) as usize];
    out[at + 2] = after;
}

// Writes one byte or more as a line over the front of `out`, which has room for it.
fn encode(bytes: &[u8], out: &mut [u8])
    requires { (0 < length bytes.now) × (3 * length bytes.now ≤ length out.old) }
    ensures { out.new ≡ written out.old (printed (text_in_hex bytes.now)) }
{
    let last = bytes.len() - 1;
    for (n, byte) in bytes[..last].iter().enumerate() {
        write_pair(*byte, SPACE, out, 3 * n);
    }
    write_pair(bytes[last], LINE_FEED, out, 3 * last);
}

// Copies a whole line over the front of `out` where it fits. With `byte_copy` the room would be tested here too, for the answer.
fn copy_line(line: &[u8], out: &mut [u8]) -> Option<usize>
    ensures { (result ≡ count_in out.old line.now) × (out.new ≡ written_in out.old line.now) }
{
    if line.len() > out.len() {
        return None;
    }
    out[..line.len()].copy_from_slice(line);
    Some(line.len())
}

// Writes bytes as a line of hex, with its line feed, over the front of `out`, and returns how many bytes that is. Where there is no
// room nothing is written.
pub fn write_block(bytes: &[u8], out: &mut [u8]) -> Option<usize>
    ensures { (result ≡ count_in out.old (printed (text_in_hex bytes.now))) × (out.new ≡ written_in out.old (printed (text_in_hex bytes.now))) }
{
    if bytes.is_empty() {
        return copy_line(b"\n", out);
    }
    if bytes.len() > out.len() / 3 {
        return None;
    }
    encode(bytes, out);
    Some(3 * bytes.len())
}

// The line feed under a short name: so the characters of a line stand in one row.
const EOL: u8 = LINE_FEED;

// Writes `refused` and a number in decimal as a line, with its line feed, over the front of `out`, and returns how many
// bytes that is. Where there is no room nothing is written. The digits are `a`, `b` and `c`, the first in front:
// three lines to be read as they stand are plainer than a loop over the digits of a number that may begin with 0.
pub fn write_refused(number: u8, out: &mut [u8]) -> Option<usize>
    ensures { (result ≡ count_in out.old (printed (refused_text number))) × (out.new ≡ written_in out.old (printed (refused_text number))) }
{
    if number < 10 {
        let a = b'0' + number;
        let line = [b'r', b'e', b'f', b'u', b's', b'e', b'd', b' ', a, EOL];
        return copy_line(&line, out);
    }
    if number < 100 {
        let a = b'0' + number / 10;
        let b = b'0' + number % 10;
        let line = [b'r', b'e', b'f', b'u', b's', b'e', b'd', b' ', a, b, EOL];
        return copy_line(&line, out);
    }
    let a = b'0' + number / 100;
    let b = b'0' + number / 10 % 10;
    let c = b'0' + number % 10;
    let line = [b'r', b'e', b'f', b'u', b's', b'e', b'd', b' ', a, b, c, EOL];
    copy_line(&line, out)
}

// Writes `not hex` as a line, with its line feed, over the front of `out`, and returns how many bytes that is. Where there is no
// room nothing is written.
pub fn write_not_hex(out: &mut [u8]) -> Option<usize>
    ensures { (result ≡ count_in out.old (printed not_hex_text)) × (out.new ≡ written_in out.old (printed not_hex_text)) }
{
    copy_line(b"not hex\n", out)
}
