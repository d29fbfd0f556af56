// The entries of the simulated heads: in every field a function of the head and of a running number, so that an entry
// tells which one it is.
use error_entry::{EntryType, ErrorEntry};
use types::common::NetTime;
use types::error_mode::ErrorEntryMode;

fn mode_of(n: u64) -> ErrorEntryMode {
    match n % 3 {
        0 => ErrorEntryMode::ErrorActive,
        1 => ErrorEntryMode::ErrorCleared,
        _ => ErrorEntryMode::EventOccurred,
    }
}

// An entry of a head with this running number; bit 15 of its type says whether it shows a status.
fn made(
    head: usize,
    number: u64,
    is_status_entry: bool,
    mode: ErrorEntryMode,
    profile: u16,
) -> ErrorEntry {
    let h = (head % 8) as u64;
    let n = number % 1000000;
    ErrorEntry {
        entry_type: EntryType {
            is_status_entry,
            send_to_queue: n % 5 == 0,
            mode,
            profile,
        },
        error_code: ((n * 31 + h * 9000) % 65536) as u16,
        timestamp: NetTime {
            seconds: 1700000000 + n as u32,
            nanoseconds: (n * 1000) as u32,
        },
        additional_information: n * 8 + h,
    }
}

// An entry that may be sent: the mode is not the terminator's, and the 12 bits of the profile hold it whole.
fn sent(head: usize, number: u64, is_status_entry: bool) -> ErrorEntry {
    let n = number % 1000000;
    let profile = (n * 7 + (head % 8) as u64) % 4096;
    made(head, number, is_status_entry, mode_of(n), profile as u16)
}

// The entry of a head with this running number.
pub fn entry(head: usize, number: u64) -> ErrorEntry {
    sent(head, number, false)
}

// An entry that shows what is wrong now (02, CR 2); but for bit 15 it is the head's entry with this number, so that a box that
// does not look at the bit has something to book.
pub fn status(head: usize, number: u64) -> ErrorEntry {
    sent(head, number, true)
}

// Entries that are raised, of which no head may raise any but the last.
#[derive(Clone, Copy)]
pub enum Kind {
    // Of the terminator's mode.
    Terminator,
    // Of a profile of 13 bits.
    WideProfile,
    // Of the terminator's mode, and with bit 15 set.
    StatusTerminator,
    // With bit 15 set.
    Status,
    Valid,
}

impl Kind {
    // Now and then one that is not valid.
    pub fn by(chance: u64) -> Kind {
        match chance % 16 {
            0 => Kind::Terminator,
            1 => Kind::WideProfile,
            2 => Kind::StatusTerminator,
            3 => Kind::Status,
            _ => Kind::Valid,
        }
    }

    // The entry of a head of this kind.
    pub fn entry(self, head: usize, number: u64) -> ErrorEntry {
        match self {
            Kind::Terminator => made(head, number, false, ErrorEntryMode::Terminator, 2),
            Kind::WideProfile => made(head, number, false, ErrorEntryMode::ErrorActive, 4096),
            Kind::StatusTerminator => made(head, number, true, ErrorEntryMode::Terminator, 2),
            Kind::Status => status(head, number),
            Kind::Valid => entry(head, number),
        }
    }
}
