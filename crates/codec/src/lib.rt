#![tactic(auto)]

// The code of lines: a line of a tape read, and the line of an answer put.
pub mod line; // line.rt: a line's pieces, and what it asks for
pub mod print; // print.rt: an answer's line
