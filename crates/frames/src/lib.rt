#![tactic(auto)]

// Select and the bytes of a frame, as functions of the chip's record.
pub mod byte; // byte.rt: where a byte takes the frame, and what it does
