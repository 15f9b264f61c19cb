// What comes back (SCOPE): SCOPE's numbers by name. The rule for choosing one is specs/Answer.antt.
#![tactic(auto)]

ghost use Rattle.std.specs.Prelude.{◌≡◌};
ghost use Rattle.answer.specs.Given.{number_of};

// What a call answers that is not refused.
pub const DONE: u32 = 0;

// Why a call is refused: the table's numbers by name (specs/Given.antt). 8 is not used; it was: a reserved bit is not zero.
#[derive(Clone, Copy, Debug, PartialEq, Eq)]
pub enum Refused {
    // 1: a lent buffer has the wrong length.
    Length,
    // 2: unknown end, frame kind, form or report code.
    Unknown,
    // 3: coefficient count outside 128 to 180.
    Count,
    // 4: a number outside its range.
    Range,
    // 5: the sync word is not an expected one.
    Sync,
    // 6: an unused bit behind the frame is not zero.
    Pad,
    // 7: the check bits differ.
    Check,
    // 9: stuffing bits that the form cannot have.
    Stuffing,
    // 10: a flag is missing or stands inside the message.
    Flag,
    // 11: an escape other than 7D 5E and 7D 5D.
    Escape,
    // 12: the message is too long or too short.
    Size,
}

impl Refused {
    // Its number in the table.
    pub fn number(self) -> u32
        ensures { result ≡ number_of self }
    {
        match self {
            Refused::Length => 1,
            Refused::Unknown => 2,
            Refused::Count => 3,
            Refused::Range => 4,
            Refused::Sync => 5,
            Refused::Pad => 6,
            Refused::Check => 7,
            Refused::Stuffing => 9,
            Refused::Flag => 10,
            Refused::Escape => 11,
            Refused::Size => 12,
        }
    }
}
