#![tactic(auto)]

// The saved form: definitions and laws, no function.
