// The frames of a cycle's isochronous part: PReq and PRes (powerlink-rs: frame/poll).
// Each has its `to_bytes` and `serialize`, as there: a trait of them would need as many blocks, and no caller takes either.
// A frame holds its payload's size and no payload: the size is sent, and may be any number, as there.
#![tactic(auto)]

pub mod preq;
pub mod pres;

use types::basic::ETH_LEN;

// How many octets stand in front of the payload, in its section and in its frame.
pub const FIELDS_LEN: usize = 10;

pub const PAYLOAD_AT: usize = ETH_LEN + FIELDS_LEN;

// The bits of octet 4 that both kinds have: a multiplexed slot, and a payload that is valid.
pub const MS: u8 = 0x20;

pub const RD: u8 = 1;
