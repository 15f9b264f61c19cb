// The C boundary: what include/sdsl.h declares. Each export is a call of the function of crate host with the same name, and promises what it promises.
// Stays: each function of crate host once more, since a static library of today's rt is no library for other crates (DECISIONS 199).
#![tactic(auto)]

mod channel;
mod data;
mod frames;
mod receiving;
mod scrambling;
mod sending;
mod supervising;
mod symbols;
