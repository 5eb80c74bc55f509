#![tactic(auto)]

// Bytes: parts of a slice, words and kinds of bytes, buffers, decimals. It knows of no chip and of no tape.

pub mod buffer; // buffer.rt: bytes put into a lent buffer
pub mod bytes; // bytes.rt: parts of a slice, words, leading bytes of a kind
pub mod decimal; // decimal.rt: decimals, read and put

// A kind of byte: a small letter, a digit, any byte that ends no line. No closure stands for it: each contract would have to say that the closure may be
// called, and what it answers.
#[derive(Clone, Copy)]
pub enum Kind {
    Letter,
    Digit,
    Plain,
}
