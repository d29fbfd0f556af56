// An entry as numbers, in the order in which include/powerlink.h names them: those that a caller is told, and those that it
// gives. specs/ defines the numbers of frames and of a StatusResponse's front too: `powerlink` makes these.
ghost use Rattle.std.specs.Prelude.{◌≡◌};
ghost use Rattle.c_values.specs.Values.{entry_numbers, time, entry_with};

use error_entry::{EntryType, ErrorEntry};
use types::common::NetTime;
use types::error_mode::ErrorEntryMode;

pub fn entry_values(e: ErrorEntry) -> [u64; 8]
    ensures { result ≡ entry_numbers e }
{
    let entry_type = e.entry_type;
    let mode = entry_type.mode;
    [
        u64::from(entry_type.is_status_entry),
        u64::from(entry_type.send_to_queue),
        u64::from(u8::from(mode)),
        u64::from(entry_type.profile),
        u64::from(e.error_code),
        u64::from(e.timestamp.seconds),
        u64::from(e.timestamp.nanoseconds),
        e.additional_information,
    ]
}

// The entry that a caller's numbers give. Which mode a number names is read before: each call refuses one that names none in
// its own way.
pub fn entry_given(
    status_entry: bool,
    send_to_queue: bool,
    mode: ErrorEntryMode,
    profile: u16,
    code: u16,
    seconds: u32,
    nanoseconds: u32,
    information: u64,
) -> ErrorEntry
    ensures { result ≡ entry_with status_entry send_to_queue mode profile code (time seconds nanoseconds) information }
{
    ErrorEntry {
        entry_type: EntryType {
            is_status_entry: status_entry,
            send_to_queue,
            mode,
            profile,
        },
        error_code: code,
        timestamp: NetTime {
            seconds,
            nanoseconds,
        },
        additional_information: information,
    }
}
