// The entries of include/freestar.h, under the names that it declares. Each hands its arguments on to the function of the same name in
// `freestar_c` and promises what that promises: a static library can't be used by another crate, and the examples use that library.
#![tactic(auto)]

ghost use Rattle.std.specs.Prelude.{◌≡◌, length};
ghost use Rattle.refusal.specs.Refusal.{outcome_of, buffer_after};
ghost use Rattle.freestar_packet.specs.Read.{read_packet};
ghost use Rattle.freestar_packet.specs.Encode.{encode};
ghost use Rattle.freestar_model.specs.Model.{delivery};
ghost use Rattle.freestar_settings.specs.Settings.{step, result_of};
ghost use Rattle.freestar_c.specs.Fields.{message_fields};

use freestar_c::MessageFields;
use freestar_settings::Settings;
use refusal::Outcome;

// Reads a block as one message.
#[unsafe(no_mangle)]
pub extern "C" fn freestar_decode(block: &[u8]) -> MessageFields
    ensures { result ≡ message_fields (read_packet block.now) }
{
    freestar_c::freestar_decode(block)
}

// Writes a message.
#[unsafe(no_mangle)]
pub extern "C" fn freestar_encode(kind: u8, content: &[u8], packet: &mut [u8]) -> Outcome
    ensures { (result ≡ outcome_of (encode kind content.now (length packet.old)))
        × (packet.new ≡ buffer_after (encode kind content.now (length packet.old)) packet.old) }
{
    freestar_c::freestar_encode(kind, content, packet)
}

// Executes one message on the settings.
#[unsafe(no_mangle)]
pub extern "C" fn freestar_execute(
    settings: &mut Settings,
    block: &[u8],
    response: &mut [u8],
) -> Outcome
    ensures { (settings.new ≡ step settings.old (delivery block.now (length response.old)))
        × (result ≡ outcome_of (result_of settings.old (delivery block.now (length response.old))))
        × (response.new ≡ buffer_after (result_of settings.old (delivery block.now (length response.old))) response.old) }
{
    freestar_c::freestar_execute(settings, block, response)
}
