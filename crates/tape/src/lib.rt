#![tactic(auto)]

// The tape as bytes: its lines as they come, chunk by chunk.
use record::Device;

pub mod chunk; // chunk.rt: a tape as it comes, chunk by chunk

// A tape between two chunks: its part, 0 while none is accepted, the chip's record, and how long the head of a line that has not ended is. The part is a
// number, and anyone may bring any tape: `feed_into` and `resumed_tape` say what becomes of each.
#[derive(Clone, Copy)]
pub struct Tape {
    pub part: u64,
    pub device: Device,
    pub begun: usize,
}

// What a chunk gave: the tape after it, how many of its bytes were taken, and the place in the output after the answers.
#[derive(Clone, Copy)]
pub struct Feed {
    pub tape: Tape,
    pub taken: usize,
    pub at: usize,
}
