// Which changed bits of a message, and so of a frame, are always noticed: one to three, and bursts of up to 16. No code: specs/ states it, proofs/ proves it.
#![tactic(auto)]
