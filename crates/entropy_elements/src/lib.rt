// What scanned coefficients are coded as: the definitions and their laws are in specs/ and proofs/, and here are the leaves that reading and
// writing share.
#![tactic(auto)]

pub mod arguments; // the limits, and the test of arguments
pub mod range; // whether every coefficient is in range
pub mod values; // DC sums and levels
pub mod zero; // a list of zeros
