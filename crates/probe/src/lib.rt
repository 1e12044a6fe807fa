// What C and Rust link of the proved code beside `cart`, for the comparison and for the replay of stored cases: whatever the face for C does not pass
// through, numbers and slices only. A function that can refuse answers 0 or document 01's refusal number, and what it refuses comes back as 0;
// `probe_end_of_data` and `probe_is_default` answer 1 or 0.
#![tactic(auto)]

mod bits; // the bit layer
mod codewords; // a codeword of any codebook
mod given; // an answer as C has it
mod reader; // the reader object
mod selectors; // what a chroma format and an alpha kind are
mod tables; // the block scans, and whether a pair of matrices is the flat one
