#![tactic(auto)]

// The end of a frame, as a function of the chip's record.
pub mod write; // write.rt: which write is carried, what its cycle writes, how WEL moves
pub mod lock; // lock.rt: how the lock moves
pub mod end; // end.rt: the end of a frame
