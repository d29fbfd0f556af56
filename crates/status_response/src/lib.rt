// The payload of an ASnd frame with service 2, StatusResponse (EPSG DS 301, 7.3.3.3.1; powerlink-rs:
// frame/control/status_response.rs).
#![tactic(auto)]

pub mod bit_field;
pub mod entries;
pub mod fields;
pub mod given;
pub mod walk;
