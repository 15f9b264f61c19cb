// Fields one behind the other, over any list of widths. No code: specs/ says where they stand, proofs/ that no bit is shared or lost.
#![tactic(auto)]
