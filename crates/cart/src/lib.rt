// What a program in C calls: numbers, byte slices and `&mut` numbers only. Every function answers 0 or document 01's refusal number; the
// numbers that come back are 0 where a call is refused, but for the bytes that are needed where there is no room and the component that a payload's
// refusal names. Coefficients are bytes, four each, little-endian two's complement.
// The C interface has u64 for usize: a cast by `as`, since std has no From between them.
#![tactic(auto)]

mod alpha_coder;
mod coefficients; // the scanned coefficient coder
mod given; // what C gets of an answer
mod matrices; // weight matrices and the scale of an index
mod slices;
