#![tactic(auto)]

// The event inputs over runs of the chip, and runs that answer as before them: specs/Claim.antt, specs/Before.antt. No function is here.
