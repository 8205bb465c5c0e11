// The unfinished stream in the lent memory.
ghost use Rattle.std.specs.Prelude.{◌≡◌, ◌≤◌, ◌<◌, [], take};
ghost use Rattle.receiver.specs.Stage.{Holds, Restored, TookByte};

use crate::Receiver;
use crate::length::announced;

// How many bytes are held, and how many their stream has at least: the announced length is looked up again only when so many are held.
#[derive(Clone, Copy)]
pub struct Unfinished {
    pub held: usize,
    pub least: usize,
}

impl Unfinished {
    // Nothing is held; no stream has fewer than six bytes.
    pub fn nothing() -> Unfinished
        ensures { result ≡ record { held = 0; least = 6 } }
    {
        Unfinished { held: 0, least: 6 }
    }

    // What a receiver holds; nothing, if no calls lead to its state.
    pub fn restored(receiver: Receiver, memory: &[u8; 772]) -> Unfinished
        ensures { Restored receiver memory.now result }
    {
        let held = receiver.held;
        // No stream is longer than the memory, and so no unfinished one is as long. Nor are more bytes held than were used.
        if held >= memory.len() || held as u64 > receiver.position {
            return Unfinished::nothing();
        }
        let least = announced(&memory[..held]);
        if least <= held || least > memory.len() {
            return Unfinished::nothing();
        }
        Unfinished { held, least }
    }

    // Takes in a byte of 0x80 or more: 0xAA begins a stream, any other ends the one that is held.
    #[tactic(auto, using(crate::proofs::Memory::begins))]
    fn begin(memory: &mut [u8; 772], byte: u8) -> Unfinished
        requires { 0x80 ≤ byte }
        ensures { TookByte [] byte memory.new result }
    {
        if byte == 0xAA {
            memory[0] = byte;
            return Unfinished {
                held: 1,
                ..Unfinished::nothing()
            };
        }
        Unfinished::nothing()
    }

    // Takes in a byte below 0x80, behind those held.
    fn add(self, memory: &mut [u8; 772], byte: u8) -> Unfinished
        requires { Holds memory.old self × ((0 < self.held) × (byte < 0x80)) }
        ensures { TookByte (take self.held memory.old) byte memory.new result }
    {
        memory[self.held] = byte;
        let held = self.held + 1;
        if held < self.least {
            return Unfinished { held, ..self };
        }
        Unfinished {
            held,
            least: announced(&memory[..held]),
        }
    }

    // Takes in one byte.
    pub fn take_byte(self, memory: &mut [u8; 772], byte: u8) -> Unfinished
        requires { Holds memory.old self }
        ensures { TookByte (take self.held memory.old) byte memory.new result }
    {
        if byte >= 0x80 {
            return Unfinished::begin(memory, byte);
        }
        if self.held == 0 {
            return self;
        }
        self.add(memory, byte)
    }
}
