// The numbers of 01's table of causes, and of those that 02 adds, which a refusal returns. The names are those of include/powerlink.h.
// They are no enum, since C is told them, and no code of ours looks at one.

// Input or target shorter than needed.
pub const TOO_SHORT: u8 = 1;

// EtherType not 88AB h.
pub const NOT_POWERLINK: u8 = 2;

// Section empty, or PRes not to 255.
pub const INVALID_FRAME: u8 = 3;

// Message type unknown; with its octet, as the next three.
pub const UNKNOWN_MESSAGE: u8 = 4;

// NMT state unknown.
pub const UNKNOWN_STATE: u8 = 5;

// Service unknown.
pub const UNKNOWN_SERVICE: u8 = 6;

// Requested service unknown.
pub const UNKNOWN_REQUEST: u8 = 7;

// Raised entry of mode 0, or profile above 4,095.
pub const ENTRY_INVALID: u8 = 8;

// 16 already waiting.
pub const QUEUE_FULL: u8 = 9;

// Read frame is no StatusResponse.
pub const NOT_STATUS_RESPONSE: u8 = 10;

// ID not registered.
pub const NOT_REGISTERED: u8 = 11;

// Fewer free places than batch entries, of those that are booked (02, CR 2).
pub const BOOK_FULL: u8 = 12;

// ID to register, or of a new head, not 1 to 239.
pub const ID_OUT_OF_RANGE: u8 = 13;

// ID registered already.
pub const ID_REGISTERED: u8 = 14;

// Four registered.
pub const FOUR_REGISTERED: u8 = 15;

// Nothing booked to take.
pub const NOTHING_BOOKED: u8 = 16;

// Journal under 5 bytes or mark wrong.
pub const NOT_A_JOURNAL: u8 = 17;

// Journal version not 1.
pub const UNKNOWN_VERSION: u8 = 18;

// Record cut, mode 0 or ID not 1 to 239.
pub const RECORD_INVALID: u8 = 19;

// Table of services under 5 bytes, or its mark or version wrong (02, CR 1).
pub const NOT_A_TABLE: u8 = 20;

// Its IDs not strictly ascending.
pub const NOT_ASCENDING: u8 = 21;

// 2, which is StatusResponse, not among them.
pub const WITHOUT_STATUS_RESPONSE: u8 = 22;

// Raised entry with bit 15 set: a status entry (02, CR 2).
pub const IS_STATUS_ENTRY: u8 = 23;
