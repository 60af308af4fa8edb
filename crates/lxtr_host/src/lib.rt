// The answers for a host program: the 64-bit number of an answer, and what is put into lent words. The functions are for `lxtr_c`,
// and do not depend on the operations.
#![tactic(auto)]

pub mod numbers; // the number that an operation answers
pub mod places; // numbers put into lent words
