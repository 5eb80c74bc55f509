#![tactic(auto)]

// READ and WRITE of the clock block: registers 00h to 1Fh, SRAM 20h to 5Fh.
pub mod read; // read.rt: what READ answers
pub mod write; // write.rt: what WRITE does
