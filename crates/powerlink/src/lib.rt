// The library for C and for other languages that call as C does: every frame, tables of services, the StatusResponse, the error
// exchange and the journal's record (01: "offered to the differential harness as C functions on numbers and byte slices").
// The crate `powerlink_c` exports each function under its name, and include/powerlink.h declares it.
//
// A call answers with 01's number of the cause, or 0. A refusal leaves every buffer and out-parameter as it was, but for
// `octet`, which receives the octet that 01's table returns with causes 4 to 7. C takes neither Result nor struct of ours: so
// an answer is a number, what a struct holds comes one by one, and each kind of frame has calls of its own.
#![tactic(auto)]

pub mod collecting;
mod frame_values;
pub mod frames;
pub mod headers;
pub mod journal;
pub mod reading;
pub mod reporting;
pub mod sections;
pub mod status;
pub mod tables;
