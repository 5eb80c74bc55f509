#![tactic(auto)]

// What holds of every tape, however it is fed: specs/Feeding.antt, specs/Steps.antt. The calls are those of `tape`; no function is here.
