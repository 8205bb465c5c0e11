// What fits a record: the tests of the refusals 1 to 4, and the length of its stream.
ghost use Rattle.std.specs.Prelude.{◌≡◌, length};
ghost use Rattle.basics.specs.Refusal.{number_in};
ghost use Rattle.record.specs.Record.{kind_in, frames_in, stream_of};
ghost use Rattle.record.specs.Encode.{high_command, wrong_length, unwritable};

use crate::RecordRef;
use basics::Refusal;
use stream::Kind;

impl<'a> RecordRef<'a> {
    // Bits of the command that the header of its kind has no room for are set.
    fn has_high_command(&self) -> bool
        ensures { result ≡ high_command (kind_in self.now) self.now.header.command }
    {
        match self.kind {
            Kind::Packet | Kind::Datagram => basics::high_word(self.header.command),
            Kind::Telegram => self.header.command > 0x7f,
            Kind::Unknown => false,
        }
    }

    // The frame count, by the payload's length or by the command.
    #[tactic(auto, unfolding(crate::specs::Record::frames_of))]
    pub fn frames(&self) -> usize
        ensures { result ≡ frames_in (kind_in self.now) self.now }
    {
        match self.kind {
            Kind::Packet => self.payload.len() / 4,
            Kind::Telegram => stream::telegram_frames(self.header.command),
            Kind::Datagram | Kind::Unknown => 0,
        }
    }

    // The payload isn't as long as its frames, or there are too many of them.
    fn has_wrong_length(&self) -> bool
        ensures { result ≡ wrong_length (kind_in self.now) self.now.header.command (length self.now.payload) }
    {
        let frames = self.frames();
        frames > 127 || self.payload.len() != stream::payload_length(self.kind, frames as u8)
    }

    // The first of the refusals 1 to 4 that applies.
    #[tactic(auto, unfolding(crate::specs::Encode::unwritable, basics::specs::Choice::choose))]
    pub fn check(&self) -> Result<(), Refusal>
        ensures { number_in result ≡ unwritable self.now }
    {
        if self.kind == Kind::Unknown {
            return Err(Refusal::UnknownVersion);
        }
        if basics::high_word(self.header.destination) || basics::high_word(self.header.source) {
            return Err(Refusal::HighAddress);
        }
        if self.has_high_command() {
            return Err(Refusal::HighCommand);
        }
        if self.has_wrong_length() {
            return Err(Refusal::WrongLength);
        }
        Ok(())
    }

    // The length of the stream of a record that none of them refuses.
    #[tactic(auto, using(crate::proofs::Carried::few_frames, crate::proofs::Carried::stream_length_as))]
    pub fn stream_length(&self) -> usize
        requires { unwritable self.now ≡ 0 }
        ensures { result ≡ length (stream_of self.now) }
    {
        stream::stream_length(self.kind, self.frames() as u8)
    }
}
