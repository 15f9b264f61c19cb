// The field reader (SCOPE, "The activation frame"): it keeps the lent frame it walks and the place of the next field.
// The functions over it are thin: the work is done by the slice-and-place functions of bitfields.
#![tactic(auto)]

ghost use Rattle.fields.specs.Promises.{Made, FieldTaken, SignedTaken};

// The lent frame, and the place of the next field.
#[derive(Drop)]
pub struct FieldReader<'a> {
    pub frame: &'a [u8],
    pub at: usize,
}

// A reader of a lent frame, at a place.
pub fn reader<'a>(frame: &'a [u8], at: usize) -> FieldReader<'a>
    ensures { Made frame.entry at result }
{
    FieldReader { frame, at }
}

impl<'a> FieldReader<'a> {
    // The next field, of w bits; the reader is then behind it.
    pub fn take(&mut self, w: u32) -> u32
        ensures { FieldTaken self.old w result self.new }
    {
        let v = bitfields::field(self.frame, self.at, w);
        self.at = bitfields::behind(self.at, w);
        v
    }

    // The next field, of w bits, in two's complement; the reader is then behind it.
    pub fn take_signed(&mut self, w: u32) -> i32
        ensures { SignedTaken self.old w result self.new }
    {
        let v = bitfields::signed_field(self.frame, self.at, w);
        self.at = bitfields::behind(self.at, w);
        v
    }
}
