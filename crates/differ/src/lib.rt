#![tactic(auto)]

// What differs between two chips: definitions and laws, no function.
