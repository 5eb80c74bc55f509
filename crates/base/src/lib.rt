#![tactic(auto)]

// The words that every definition shares stand in specs/, their laws in proofs/. No function is here.
