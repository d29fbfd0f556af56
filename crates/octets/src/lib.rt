// Octets of a slice, and the numbers that they make. No call demands anything of its caller: what lies past the end
// reads as 0 and is not stored.
// A slice and a place in it come apart: a struct of both would be made for each call.
#![tactic(auto)]

pub mod big_endian;
pub mod little_endian;
pub mod slices;
