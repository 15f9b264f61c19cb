// Which changed bits of an operations channel message are always noticed: one to three, and bursts of up to 16, counted before escaping; on the line not
// even one. No code: specs/ states it, proofs/ proves it.
#![tactic(auto)]
