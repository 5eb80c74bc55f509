#![tactic(auto)]

// The ledger stands in specs/, with the closed runs that show what it says. No function is here.
