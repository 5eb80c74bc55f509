#![tactic(auto)]

// Runs of acts: demand 3 and the other claims about every list of acts, as definitions and laws; the code that performs one is in batch.
use record::Device;

// What a run that is not refused answers: how many acts were performed, and the record after them.
#[derive(Clone, Copy)]
pub struct Ran {
    pub count: usize,
    pub device: Device,
}
