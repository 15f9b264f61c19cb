// The activation frame's measures (SCOPE, "The activation frame"). What they mean is in specs/; a field's place follows from the
// widths before it.
#![tactic(auto)]

// The coefficients, and the bits of one.
pub const COEFFICIENTS: usize = ranges::COEFFICIENTS;

pub const COEFFICIENT_BITS: u32 = ranges::COEFFICIENT_BITS;

// The places from one coefficient to the next, and the bits of all of them.
pub const COEFFICIENT_STEP: usize = COEFFICIENT_BITS as usize;

pub const ALL_COEFFICIENT_BITS: u32 = COEFFICIENTS as u32 * COEFFICIENT_BITS;

// The bits of sync, of A or B, of vendor data, of the reserved field, of the check bits and of the pad.
pub const SYNC_BITS: u32 = 14;

pub const WORD_BITS: u32 = ranges::WORD_BITS;

pub const VENDOR_BITS: u32 = 8 * VENDOR_OCTETS as u32;

pub const RESERVED_BITS: u32 = 67;

pub const CHECK_BITS: u32 = 16;

pub const PAD_BITS: u32 = 5;

// Vendor data's octets, and those that the reserved bits take.
pub const VENDOR_OCTETS: usize = 16;

pub const RESERVED_OCTETS: usize = (RESERVED_BITS as usize + 7) / 8;

// The fields' places, from 0.
pub const COEFFICIENTS_AT: usize = SYNC_BITS as usize;

pub const A_AT: usize = COEFFICIENTS_AT + COEFFICIENTS * COEFFICIENT_STEP;

pub const B_AT: usize = A_AT + WORD_BITS as usize;

pub const VENDOR_AT: usize = B_AT + WORD_BITS as usize;

pub const RESERVED_AT: usize = VENDOR_AT + VENDOR_BITS as usize;

pub const CHECK_AT: usize = RESERVED_AT + RESERVED_BITS as usize;

pub const PAD_AT: usize = CHECK_AT + CHECK_BITS as usize;

// A frame's octets.
pub const FRAME_OCTETS: usize = (PAD_AT + PAD_BITS as usize) / 8;

// The bits under the check bits: 15 to 4211 of the paper.
pub const MESSAGE_BITS: u32 = ALL_COEFFICIENT_BITS + 2 * WORD_BITS + VENDOR_BITS + RESERVED_BITS;

// The bits behind sync and before the pad: 15 to 4227 of the paper.
pub const PAYLOAD_BITS: u32 = MESSAGE_BITS + CHECK_BITS;

// The two sync words, the first bit lowest.
pub const TRAINING_SYNC: u32 = 0x359f;

pub const FINAL_SYNC: u32 = 0x3e6b;

// The two kinds.
// Stays: numbers, since sender::send takes any and answers 2 for one that is neither (`send_refusals`); what reading gives is checker::Kind.
pub const TRAINING: u32 = 0;

pub const FINAL: u32 = 1;

// The fewest coefficients in use.
pub const FEWEST: u32 = 128;
