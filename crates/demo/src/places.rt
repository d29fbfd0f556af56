// Where a frame has what is read or changed here: the Ethernet header's type, then octets of the section.

pub const ETHER_TYPE_AT: usize = 12;

pub const MESSAGE_AT: usize = 14;

pub const DESTINATION_AT: usize = 15;

pub const SOURCE_AT: usize = 16;

// An ASnd's service, and an SoA's NMT state.
pub const SERVICE_AT: usize = 17;

// EN and EC of a StatusResponse, and EA of what the managing node sends.
pub const FLAGS_AT: usize = 18;

// A StatusResponse's NMT state, and the service that an SoA requests.
pub const STATE_AT: usize = 20;

// An SoA's target.
pub const TARGET_AT: usize = 21;

// A PReq's payload size.
pub const SIZE_AT: usize = 22;

// A StatusResponse's entries.
pub const ENTRIES_AT: usize = 32;
