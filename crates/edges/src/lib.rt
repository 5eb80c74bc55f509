#![tactic(auto)]

// The twelve edges are a statement about the definitions: specs/Edges.antt. No function is here.
