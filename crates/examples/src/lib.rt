// The thirteen examples of SCOPE as one table: specs/Table.antt holds the rows, proofs/Examples.antt the one claim over them. Five more, of
// data-mode frames, are another table: specs/Data.antt and proofs/Data.antt. No code.
#![tactic(auto)]
