// Reads and writes numbers, labels and heads as bytes, in the forms that images, queries, key lists and listings share. The
// functions are for the crates that use this one.
#![tactic(auto)]

pub mod numbers; // numbers of 32 bits in four bytes
pub mod labels; // Unicode scalar values, and sequences of labels of four bytes each
pub mod heads; // version and count, with which a code map, a key list and a listing begin
