#![tactic(auto)]

// Power cut and power up, of the record.
pub mod cut; // cut.rt: a cut, and up
