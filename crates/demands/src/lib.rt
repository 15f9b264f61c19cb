// What the crates below promise together. No code: specs/ says it, proofs/ proves it.
#![tactic(auto)]
