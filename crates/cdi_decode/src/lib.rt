// The reader of the module's responses, for the host: document 02, Ask 1. `decode_response` is handed the payload that was sent and the
// block that came back. It accepts exactly the responses that a module in a valid state can give to that payload, and says where the value
// is. Any other payload is refused with 23 and the place of its first byte that no such response has there.
#![tactic(auto)]

mod value;

ghost use Rattle.std.specs.Prelude.{◌≡◌, ◌≢◌, ◌∷◌, ◌≤◌, length};
ghost use Rattle.std.specs.Bool.{MatchBool};
ghost use Rattle.refusal.specs.Refusal.{accepted};
ghost use Rattle.cdi_item.specs.Items.{item_of};
ghost use Rattle.cdi_command.specs.Command.{validate_payload};
ghost use Rattle.cdi_command.specs.Check.{command_about};
ghost use Rattle.cdi_command.specs.Payload.{ack_response, no_error};
ghost use Rattle.cdi_decode.specs.declared.ResponseError.TheVariants.{Refused};
ghost use Rattle.cdi_decode.specs.Scan.{SameUpTo, read_kind, read_head};
ghost use Rattle.cdi_decode.specs.Follow.{no_value};
ghost use Rattle.cdi_decode.specs.Decode.{read_as, read_payload, decode_response, read_framed, in_block, located, answered, decoded_fields, decoded_from};

use cdi_command::{ACK_RESPONSE, NO_ERROR, PAYLOAD_MAX, READ, READ_NV_RESPONSE, READ_RESPONSE};
use cdi_frame::Span;
use cdi_item::Item;
use refusal::{NONE, Refusal};
use value::Arrived;

// Why a block is no response to what was sent.
#[derive(Clone, Copy, PartialEq, Eq)]
pub enum ResponseError {
    // The payload that was sent is refused, or the frame that came back.
    Refused(Refusal),
    // No valid state makes the module respond so: the place in the payload of the first byte that no such response has there.
    NoSuchResponse { place: usize },
}

impl From<Refusal> for ResponseError {
    ghost from_gives = { λ refusal error. error ≡ Refused refusal };

    fn from(refusal: Refusal) -> ResponseError {
        ResponseError::Refused(refusal)
    }
}

// What is told to C: the number of the refusal or 0; with 23 the place in the payload; where the value, or the echo, is in the block.
#[repr(C)]
#[derive(Clone, Copy, Default)]
pub struct Decoded {
    pub refusal: u8,
    pub place: usize,
    pub start: usize,
    pub length: usize,
}

impl From<Result<Span, ResponseError>> for Decoded {
    ghost from_gives = { λ read told. told ≡ decoded_from read };

    fn from(read: Result<Span, ResponseError>) -> Decoded {
        match read {
            Ok(span) => Decoded {
                refusal: NONE,
                place: 0,
                start: span.start,
                length: span.length,
            },
            Err(ResponseError::Refused(refusal)) => Decoded {
                refusal: refusal.number(),
                ..Decoded::default()
            },
            Err(ResponseError::NoSuchResponse { place }) => Decoded {
                refusal: Refusal::NoSuchResponse.number(),
                place,
                ..Decoded::default()
            },
        }
    }
}

// A response has no wake bytes, so its payload is from the block's fourth byte on.
const RESPONSE_WAKES: usize = 0;

const PAYLOAD_START: usize = 3;

// Where the echo is in the payload of a response.
const ECHO_START: usize = 2;

fn read_kind(code: u8) -> u8
    ensures { result ≡ read_kind code }
{
    if code == READ {
        READ_RESPONSE
    } else {
        READ_NV_RESPONSE
    }
}

// Whether some bytes are those that were sent. A row's payload, the longest, is compared at once: `==` of the slices takes longer.
fn is_same(found: &[u8], sent: &[u8]) -> bool
    ensures { MatchBool result (found.now ≡ sent.now) (found.now ≢ sent.now) }
{
    match (
        found.as_array::<PAYLOAD_MAX>(),
        sent.as_array::<PAYLOAD_MAX>(),
    ) {
        (Some(found), Some(sent)) => *found == *sent,
        _ => {
            found.len() == sent.len() && found.iter().zip(sent).all(|(found, sent)| *found == *sent)
        }
    }
}

// How many bytes of `found` are those of `expected`, from the first on.
fn count_same(expected: &[u8], found: &[u8]) -> usize
    ensures { SameUpTo expected.now found.now result }
{
    expected
        .iter()
        .zip(found)
        .take_while(|(expected, found)| **expected == **found)
        .count()
}

// Whether a payload begins with the head of the response to a read: its kind, the item and the index again. What is known of the two lengths, here
// and below, comes from different tests, so one type for both payloads would be no plainer.
fn has_head(sent: &[u8], payload: &[u8]) -> bool
    requires { (2 ≤ length sent.now) × (length sent.now ≤ 3) }
    ensures { MatchBool result (SameUpTo (read_head sent.now) payload.now (length sent.now)) (SameUpTo (read_head sent.now) payload.now (length sent.now) → ⊥) }
{
    match (sent, payload) {
        ([code, item], [kind, item_again, ..]) => {
            *kind == read_kind(*code) && *item_again == *item
        }
        ([code, item, index], [kind, item_again, index_again, ..]) => {
            *kind == read_kind(*code) && *item_again == *item && *index_again == *index
        }
        _ => false,
    }
}

// How many bytes of a payload are that head, from the first on. It is asked only where the head is wrong: to count it first took more instructions.
fn count_head(sent: &[u8], payload: &[u8]) -> usize
    requires { (2 ≤ length sent.now) × (1 ≤ length payload.now) }
    ensures { SameUpTo (read_head sent.now) payload.now result }
{
    if payload[0] != read_kind(sent[0]) {
        return 0;
    }
    1 + count_same(&sent[1..], &payload[1..])
}

// Reads a payload as the response to a read: its head, then the value.
#[tactic(auto, using(crate::proofs::Ways::value_ways))]
fn read_value(item: Item, sent: &[u8], payload: &[u8]) -> Result<Span, ResponseError>
    requires { (item_of item.code ≡ accepted item) × (2 ≤ length sent.now) × (length sent.now ≤ 3) × (1 ≤ length payload.now) }
    ensures { answered result ≡ accepted (in_block (read_as (read_head sent.now) item (length sent.now) payload.now)) }
{
    if !has_head(sent, payload) {
        return Err(ResponseError::NoSuchResponse {
            place: count_head(sent, payload),
        });
    }
    let head = sent.len();
    let value = Arrived {
        item,
        bytes: &payload[head..],
    };
    if value.is_whole() {
        return Ok(Span {
            start: PAYLOAD_START + head,
            length: value.bytes.len(),
        });
    }
    Err(ResponseError::NoSuchResponse {
        place: head + value.place(),
    })
}

// Reads a payload as the response to a command that is no read: two bytes, then the payload that was sent.
#[tactic(auto, using(crate::proofs::Ways::echo_ways))]
fn read_echo(sent: &[u8], payload: &[u8]) -> Result<Span, ResponseError>
    requires { 1 ≤ length payload.now }
    ensures { answered result ≡ accepted (in_block (read_as (ack_response ∷ no_error ∷ sent.now) no_value 2 payload.now)) }
{
    match payload {
        [ACK_RESPONSE, NO_ERROR, echoed @ ..] => {
            if is_same(echoed, sent) {
                return Ok(Span {
                    start: PAYLOAD_START + ECHO_START,
                    length: echoed.len(),
                });
            }
            Err(ResponseError::NoSuchResponse {
                place: ECHO_START + count_same(sent, echoed),
            })
        }
        [ACK_RESPONSE, ..] => Err(ResponseError::NoSuchResponse { place: 1 }),
        _ => Err(ResponseError::NoSuchResponse { place: 0 }),
    }
}

// Reads a payload as the response to a command whose own payload is `sent`, with the item that it is about, if it is about one.
fn read_payload(about: Option<Item>, sent: &[u8], payload: &[u8]) -> Result<Span, ResponseError>
    requires { (validate_payload sent.now ≡ accepted (command_about about sent.now)) × (1 ≤ length payload.now) }
    ensures { answered result ≡ accepted (in_block (read_payload (command_about about sent.now) payload.now)) }
{
    match about {
        Some(item) if cdi_command::is_read(sent[0]) => read_value(item, sent, payload),
        _ => read_echo(sent, payload),
    }
}

// Reads a block as the response to such a command.
fn read_block(about: Option<Item>, sent: &[u8], block: &[u8]) -> Result<Span, ResponseError>
    requires { validate_payload sent.now ≡ accepted (command_about about sent.now) }
    ensures { answered result ≡ located (read_framed (command_about about sent.now) block.now) }
{
    let span = cdi_frame::read_frame(block, RESPONSE_WAKES)?;
    let end = span.start + span.length;
    read_payload(about, sent, &block[span.start..end])
}

// Reads a block as the response to a payload that was sent. The refusals of the payload come first, as the host's writer gives them, then
// those of the frame, then 23. The first clause leaves one answer. The second is what C is told of it.
#[tactic(auto, using(crate::proofs::Told::fields_told), unfolding(crate::specs::Decode::decode_response))]
pub fn decode_response(sent: &[u8], block: &[u8]) -> Result<Span, ResponseError>
    ensures read { answered result ≡ located (decode_response sent.now block.now) }
    ensures told { decoded_from result ≡ decoded_fields (decode_response sent.now block.now) }
{
    let about = cdi_command::check_payload(sent)?;
    read_block(about, sent, block)
}
