// The settings of a Wi.Freestar radio, and a message executed on them: document 02, Ask 11. The theorem on sequences of messages is about
// `execute`.
#![tactic(auto)]

ghost use Rattle.std.specs.Prelude.{◌≡◌, true, length};
ghost use Rattle.refusal.specs.Numbers.{answer as answer_of, in_room, WritesIfAccepted};
ghost use Rattle.freestar_packet.specs.Layout.{requests, fits_in, pan_id_fits};
ghost use Rattle.freestar_model.specs.Model.{delivery};
ghost use Rattle.freestar_settings.specs.Settings.{ArrayLengths, address_bytes, stored, answer, validate, step, result_of};

use freestar_packet::{
    Message, QUERY_ADDRESS, QUERY_CHANNEL, QUERY_PAN_ID, RESET_ACKNOWLEDGED, RESPOND_ADDRESS,
    RESPOND_CHANNEL, RESPOND_PAN_ID, SET_ADDRESS, SET_ADDRESS_ACKNOWLEDGED, SET_CHANNEL,
    SET_CHANNEL_ACKNOWLEDGED, SET_PAN_ID, SET_PAN_ID_ACKNOWLEDGED,
};
use refusal::Refusal;

// The settings, each in the order of its bytes in a message: the low byte first.
#[repr(C)]
#[derive(Clone, Copy)]
pub struct Settings {
    pub pan_id: [u8; 2],
    pub long_address: [u8; 8],
    pub short_address: [u8; 2],
    pub channel: u8,
}

impl Settings {
    // The settings as they are. Its contract is what it is for: the lengths of their arrays, which a theorem about the settings of a
    // program may then ask for.
    pub fn array_lengths(self) -> Settings
        ensures { (result ≡ self) × ArrayLengths self }
    {
        self
    }

    // Accepts a block as a message from the host, or refuses it with 24 to 28. The room for the answer is not looked at.
    #[tactic(auto, using(freestar_packet::proofs::Frame::data_handed), unfolding(crate::specs::Settings::validate))]
    fn accept(&self, block: &[u8]) -> Result<Message, Refusal>
        ensures { answer_of result ≡ validate self.now block.now }
    {
        let message = freestar_decode::read_frame(block)?;
        let content = message.content(block);
        if !freestar_packet::fits_request(message.kind, content.len()) {
            return Err(Refusal::PacketContent);
        }
        let [low, high] = self.pan_id;
        if !(freestar_packet::pan_id_holds(message.kind, content)
            && freestar_packet::fits_pan_id(low, high))
        {
            return Err(Refusal::PanIdOver);
        }
        Ok(message)
    }

    // Both addresses as one message has them. They are named one by one: a copy of slices would call C's `memmove`, which the library does not need.
    fn addresses(self) -> [u8; 10]
        ensures { result ≡ address_bytes self }
    {
        let [a, b, c, d, e, f, g, h] = self.long_address;
        let [i, j] = self.short_address;
        [a, b, c, d, e, f, g, h, i, j]
    }

    // Writes the answer to a message, if there is room for it. Each type has a call of its own, so that the writer is compiled for data of one length.
    fn respond(self, message: Message, response: &mut [u8]) -> Result<usize, Refusal>
        requires { (fits_in requests message.kind message.data_length ≡ true) × (pan_id_fits self.pan_id ≡ true) }
        ensures { WritesIfAccepted (in_room (length response.old) (answer self message.kind)) response.old response.new result }
    {
        match message.kind {
            SET_PAN_ID => freestar_encode::encode(SET_PAN_ID_ACKNOWLEDGED, b"", response),
            QUERY_PAN_ID => freestar_encode::encode(RESPOND_PAN_ID, &self.pan_id, response),
            SET_ADDRESS => freestar_encode::encode(SET_ADDRESS_ACKNOWLEDGED, b"", response),
            QUERY_ADDRESS => freestar_encode::encode(RESPOND_ADDRESS, &self.addresses(), response),
            SET_CHANNEL => freestar_encode::encode(SET_CHANNEL_ACKNOWLEDGED, b"", response),
            QUERY_CHANNEL => freestar_encode::encode(RESPOND_CHANNEL, &[self.channel], response),
            _ => freestar_encode::encode(RESET_ACKNOWLEDGED, b"", response),
        }
    }

    // Stores the data of a message of this type.
    #[tactic(auto, using(logic::proofs::Places::part_is_bytes), unfolding(crate::specs::Settings::stored, freestar_packet::specs::Layout::fits_in))]
    fn store(&mut self, kind: u8, content: &[u8])
        requires { fits_in requests kind (length content.now) ≡ true }
        ensures { self.new ≡ stored self.old kind content.now }
    {
        match kind {
            SET_PAN_ID => self.pan_id = [content[0], content[1]],
            SET_ADDRESS => {
                self.long_address = [
                    content[0], content[1], content[2], content[3], content[4], content[5],
                    content[6], content[7],
                ];
                self.short_address = [content[8], content[9]];
            }
            SET_CHANNEL => self.channel = content[0],
            _ => {}
        }
    }

    // Decides on a message, answers it, and stores. A refusal changes no byte of `response` and nothing in the settings.
    #[tactic(auto, unfolding(crate::specs::Settings::step, crate::specs::Settings::result_of))]
    fn take(&mut self, block: &[u8], response: &mut [u8]) -> Result<usize, Refusal>
        ensures { (self.new ≡ step self.old (delivery block.now (length response.old)))
            × WritesIfAccepted (result_of self.old (delivery block.now (length response.old))) response.old response.new result }
    {
        let message = self.accept(block)?;
        let length = self.respond(message, response)?;
        self.store(message.kind, message.content(block));
        Ok(length)
    }
}

// What came of a message: the settings after it, and the refusal or the length of the answer.
#[derive(Clone, Copy)]
pub struct Executed {
    pub settings: Settings,
    pub outcome: Result<usize, Refusal>,
}

// Executes one message on settings. A refusal changes no byte of `response` and nothing in the settings.
pub fn execute(mut settings: Settings, block: &[u8], response: &mut [u8]) -> Executed
    ensures { (result.settings ≡ step settings (delivery block.now (length response.old)))
        × WritesIfAccepted (result_of settings (delivery block.now (length response.old))) response.old response.new result.outcome }
{
    let outcome = settings.take(block, response);
    Executed { settings, outcome }
}
