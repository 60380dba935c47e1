// The entries of include/freestar.h, which says what each reads and writes. No enum crosses the C boundary. The settings stay where the
// caller has them and are updated there: `freestar_execute` calls `execute` with their value and stores the settings of its result.
// `freestar_exports` has each entry under the name that C calls. A contract speaks of outcome and buffer apart, since C is told a struct and no `Result`.
#![tactic(auto)]

ghost use Rattle.std.specs.Prelude.{◌≡◌, length};
ghost use Rattle.refusal.specs.Refusal.{outcome_of, buffer_after};
ghost use Rattle.refusal.specs.Numbers.{answer};
ghost use Rattle.freestar_packet.specs.Read.{read_packet};
ghost use Rattle.freestar_packet.specs.Encode.{encode};
ghost use Rattle.freestar_model.specs.Model.{delivery};
ghost use Rattle.freestar_settings.specs.Settings.{step, result_of};
ghost use Rattle.freestar_c.specs.Fields.{message_fields};

use freestar_packet::Message;
use freestar_settings::Settings;
use refusal::{NONE, Outcome, Refusal};

// What was read from a block: freestar_message of the header.
#[repr(C)]
#[derive(Clone, Copy, Default)]
pub struct MessageFields {
    pub refusal: u8,
    pub kind: u8,
    pub data_length: u8,
}

impl From<Result<Message, Refusal>> for MessageFields {
    ghost from_gives = { λ read fields. fields ≡ message_fields (answer read) };

    // Of a block that is refused nothing is told but the number.
    fn from(read: Result<Message, Refusal>) -> MessageFields {
        match read {
            Ok(message) => MessageFields {
                refusal: NONE,
                kind: message.kind,
                data_length: message.data_length,
            },
            Err(refusal) => MessageFields {
                refusal: refusal.number(),
                ..MessageFields::default()
            },
        }
    }
}

// Reads a block as one message.
pub fn freestar_decode(block: &[u8]) -> MessageFields
    ensures { result ≡ message_fields (read_packet block.now) }
{
    freestar_decode::decode(block).into()
}

// Writes a message.
#[tactic(auto, using(refusal::proofs::Told::outcome_told))]
pub fn freestar_encode(kind: u8, content: &[u8], packet: &mut [u8]) -> Outcome
    ensures { (result ≡ outcome_of (encode kind content.now (length packet.old)))
        × (packet.new ≡ buffer_after (encode kind content.now (length packet.old)) packet.old) }
{
    freestar_encode::encode(kind, content, packet).into()
}

// What a message leaves, by value: the settings, and the outcome as C has it.
#[derive(Clone, Copy)]
struct Executed {
    settings: Settings,
    outcome: Outcome,
}

#[tactic(auto, using(refusal::proofs::Told::outcome_told))]
fn execute_by_value(settings: Settings, block: &[u8], response: &mut [u8]) -> Executed
    ensures { (result.settings ≡ step settings (delivery block.now (length response.old)))
        × (result.outcome ≡ outcome_of (result_of settings (delivery block.now (length response.old))))
        × (response.new ≡ buffer_after (result_of settings (delivery block.now (length response.old))) response.old) }
{
    let done = freestar_settings::execute(settings, block, response);
    Executed {
        settings: done.settings,
        outcome: done.outcome.into(),
    }
}

// Executes one message on the settings.
pub fn freestar_execute(settings: &mut Settings, block: &[u8], response: &mut [u8]) -> Outcome
    ensures { (settings.new ≡ step settings.old (delivery block.now (length response.old)))
        × (result ≡ outcome_of (result_of settings.old (delivery block.now (length response.old))))
        × (response.new ≡ buffer_after (result_of settings.old (delivery block.now (length response.old))) response.old) }
{
    let done = execute_by_value(*settings, block, response);
    *settings = done.settings;
    done.outcome
}
