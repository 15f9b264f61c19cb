// Which changed bits of a data-mode frame are noticed, and which two are not. No code: specs/ states it, proofs/ proves it.
#![tactic(auto)]
