// An entry of the error list of a StatusResponse (powerlink-rs: frame/error/status_response.rs).
#![tactic(auto)]

ghost use Rattle.std.specs.Prelude.{◌≡◌};
ghost use Rattle.std.proofs.lemmas.List.Edits.{sets};
ghost use Rattle.section.specs.Write.{Writes};
ghost use Rattle.error_entry.specs.Entry.{entry_type_of, type_number, entry_of, entry_bytes, or_terminator, ReadsEntry};

use octets::little_endian::{get_le, put_le};
use types::common::NetTime;
use types::error_mode::ErrorEntryMode;
use types::hal::PowerlinkError;

// The octets of an entry.
pub const ENTRY_LEN: usize = 20;

// The flags of an entry's type.
const STATUS_ENTRY: u16 = 0x8000;

const SEND_TO_QUEUE: u16 = 0x4000;

// The type of an entry (EPSG DS 301, Table 96).
#[derive(Clone, Copy, Debug, PartialEq, Eq)]
pub struct EntryType {
    // A status entry shows what is wrong now; any other is an entry of the history.
    pub is_status_entry: bool,
    pub send_to_queue: bool,
    pub mode: ErrorEntryMode,
    // The profile that defines the code; 12 bits of it are sent.
    pub profile: u16,
}

// An entry (EPSG DS 301, Table 94).
#[derive(Clone, Copy, Debug, PartialEq, Eq)]
pub struct ErrorEntry {
    pub entry_type: EntryType,
    pub error_code: u16,
    pub timestamp: NetTime,
    pub additional_information: u64,
}

// The entry of zeros that ends a list.
const TERMINATOR: ErrorEntry = ErrorEntry {
    entry_type: EntryType {
        is_status_entry: false,
        send_to_queue: false,
        mode: ErrorEntryMode::Terminator,
        profile: 0,
    },
    error_code: 0,
    timestamp: NetTime {
        seconds: 0,
        nanoseconds: 0,
    },
    additional_information: 0,
};

impl From<u16> for EntryType {
    ghost from_gives = { λ n t. t ≡ entry_type_of n };

    #[tactic(auto, unfolding(crate::specs::Entry::entry_type_of))]
    fn from(value: u16) -> EntryType {
        EntryType {
            is_status_entry: value / STATUS_ENTRY % 2 == 1,
            send_to_queue: value / SEND_TO_QUEUE % 2 == 1,
            mode: ErrorEntryMode::from_bits((value / 0x1000 % 0x10) as u8),
            profile: value % 0x1000,
        }
    }
}

impl From<EntryType> for u16 {
    ghost from_gives = { λ t n. n ≡ type_number t };

    // The profile loses what lies above its 12 bits.
    #[tactic(auto, unfolding(crate::specs::Entry::type_number))]
    fn from(entry_type: EntryType) -> u16 {
        let status_entry = u16::from(entry_type.is_status_entry);
        let send_to_queue = u16::from(entry_type.send_to_queue);
        let mode = u16::from(u8::from(entry_type.mode));
        STATUS_ENTRY * status_entry
            + SEND_TO_QUEUE * send_to_queue
            + 0x1000 * mode
            + entry_type.profile % 0x1000
    }
}

impl ErrorEntry {
    // The entry that the first 20 octets are.
    #[tactic(auto, unfolding(crate::specs::Entry::read_entry))]
    pub fn deserialize(buffer: &[u8]) -> Result<ErrorEntry, PowerlinkError>
        ensures { ReadsEntry buffer.now result }
    {
        if buffer.len() < ENTRY_LEN {
            return Err(PowerlinkError::BufferTooShort);
        }
        Ok(entry_in(buffer))
    }

    // The entry that was read, or a terminator where there is none: for a caller that counts its entries itself. It stands here,
    // and not as `unwrap_or` at each caller, since a constant has no contract that says what it is.
    pub fn or_terminator(read: Result<ErrorEntry, PowerlinkError>) -> ErrorEntry
        ensures { result ≡ or_terminator read }
    {
        read.unwrap_or(TERMINATOR)
    }

    // Writes the 20 octets, if they fit.
    pub fn serialize(self, target: &mut [u8]) -> Result<usize, PowerlinkError>
        ensures { Writes (entry_bytes self) result target.old target.new }
    {
        if target.len() < ENTRY_LEN {
            return Err(PowerlinkError::BufferTooShort);
        }
        self.put(target);
        Ok(ENTRY_LEN)
    }

    // Writes the 20 octets to the front of `target`, each field straight to its place, where the length was tested.
    #[tactic(auto, unfolding(crate::specs::Entry::entry_bytes))]
    fn put(self, target: &mut [u8])
        ensures { target.new ≡ sets target.old 0 (entry_bytes self) }
    {
        put_le(target, 0, u16::from(self.entry_type));
        put_le(target, 2, self.error_code);
        put_le(target, 4, self.timestamp.seconds);
        put_le(target, 8, self.timestamp.nanoseconds);
        put_le(target, 12, self.additional_information);
    }
}

// The entry that 20 octets are. Their number was tested, and the compiler drops the tests in these reads.
#[tactic(auto, unfolding(crate::specs::Entry::entry_of))]
fn entry_in(s: &[u8]) -> ErrorEntry
    ensures { result ≡ entry_of s.now }
{
    let entry_type = EntryType::from(get_le::<_, u16>(s, 0));
    ErrorEntry {
        entry_type,
        error_code: get_le(s, 2),
        timestamp: NetTime {
            seconds: get_le(s, 4),
            nanoseconds: get_le(s, 8),
        },
        additional_information: get_le(s, 12),
    }
}
