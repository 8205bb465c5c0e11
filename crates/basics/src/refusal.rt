// The refusals of documents 01 and 02.
ghost use Rattle.std.specs.Prelude.{◌≡◌};
ghost use Rattle.basics.specs.Refusal.{number};

// Why a call is refused.
#[derive(Clone, Copy, PartialEq, Eq)]
pub enum Refusal {
    // 1: the version is none of 0x10, 0x20, 0x30 and 0x31.
    UnknownVersion = 1,
    // 2: the destination or the source has bit 7 or 15 set.
    HighAddress = 2,
    // 3: the command has bit 7 or 15 set, or is above 0x7F in a telegram.
    HighCommand = 3,
    // 4: the payload's length doesn't fit the record.
    WrongLength = 4,
    // 5: the output is shorter than the result.
    OutputTooShort = 5,
    // 6: the start lies behind the input's end.
    StartPastEnd = 6,
    // 7: more than seven bytes, or one of them or the septet is no low byte.
    WrongSeptetBlock = 7,
    // 8: the record is no block packet.
    NotBlockPacket = 8,
    // 9: a section runs past the payload's end.
    SectionPastEnd = 9,
    // 10: there is no section or element with that number.
    NoSuchPart = 10,
    // 11: the section's type isn't in the table.
    UnknownSectionType = 11,
    // 12: the position would pass the largest 64-bit number.
    PositionOverflow = 12,
    // 13: the section ends within an element.
    PartialElement = 13,
    // 14: no slave has such an address.
    NotSlaveAddress = 14,
    // 15: the owner has that address already.
    AddressTaken = 15,
    // 16: the owner holds 24 entries or more, or no entry is free.
    TableFull = 16,
    // 17: the owner has no such address.
    NoSuchAddress = 17,
    // 18: the record is no slave ID response, or an identifier needs more than 24 bits.
    NotSlaveId = 18,
    // 19: loss or gain is 0, or the loss is above the largest energy.
    WrongSettings = 19,
    // 20: the sender isn't idle.
    SenderBusy = 20,
    // 24: the table doesn't have 32 entries.
    WrongTableLength = 24,
    // 25: more than 772 bytes are to be queued.
    QueueTooLong = 25,
}

impl Refusal {
    // The papers' number.
    pub fn number(self) -> u32
        ensures { result ≡ number self }
    {
        self as u32
    }
}
