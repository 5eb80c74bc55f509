#![tactic(auto)]

// The three demands as one statement, proved by citing: specs/Demands.antt, proofs/Proved.antt. It has no function and no definition of the chip.
