// The measures of operations channel messages (002, clauses 10.5.5.1 to 10.5.5.6). What they mean is in specs/.
#![tactic(auto)]

// A flag at either end of a message, and nowhere in it.
pub const FLAG: u8 = 0x7e;

// An escape: with 5E behind it, it stands for a flag, with 5D for itself.
pub const ESCAPE: u8 = 0x7d;

pub const FLAG_MARK: u8 = 0x5e;

pub const ESCAPE_MARK: u8 = 0x5d;

// An address is below this, and a message number below that.
pub const ADDRESSES: u32 = 16;

pub const NUMBERS: u32 = 256;

// The most octets of contents.
pub const CONTENTS: usize = 73;

// The most octets before the check sequence: addresses, message number and contents.
pub const BODY: usize = 75;

// The most octets with it.
pub const FIELDS: usize = 77;

// The most octets of a written form: two flags, and every octet between them doubled.
pub const FORM: usize = 156;

// Destinations that every unit answers to: the adjacent unit, and all units.
pub const ADJACENT: u32 = 0;

pub const EVERY_UNIT: u32 = 15;
