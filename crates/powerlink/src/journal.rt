// The journal of booked entries (01, "Journal").
ghost use Rattle.powerlink.specs.Given.{time};
ghost use Rattle.powerlink.specs.Journal.{JournalRecords, JournalWhole};

use c_values::values::entry_given;
use journal_records::{JOURNAL_RECORD_LEN, JournalError, WholeLenError, whole_len, write};
use types::NodeId;
use types::causes::{NOT_A_JOURNAL, RECORD_INVALID, TOO_SHORT, UNKNOWN_VERSION};
use types::error_mode::ErrorEntryMode;

// Writes one record; mark and version are the caller's. A mode that is none is no record's: cause 19, after 1.
pub fn powerlink_journal_record(
    id: u8,
    status_entry: bool,
    send_to_queue: bool,
    mode: u8,
    profile: u16,
    code: u16,
    seconds: u32,
    nanoseconds: u32,
    information: u64,
    target: &mut [u8],
    written: &mut usize,
) -> u8
    ensures { JournalRecords id status_entry send_to_queue mode profile code (time seconds nanoseconds) information result target.old target.new written.old written.new }
{
    match ErrorEntryMode::try_from(mode) {
        Err(_) => {
            if target.len() < JOURNAL_RECORD_LEN {
                return TOO_SHORT;
            }
            RECORD_INVALID
        }
        Ok(mode) => {
            let entry = entry_given(
                status_entry,
                send_to_queue,
                mode,
                profile,
                code,
                seconds,
                nanoseconds,
                information,
            );
            match write(NodeId(id), entry, target) {
                Ok(n) => {
                    *written = n;
                    0
                }
                Err(JournalError::BufferTooShort) => TOO_SHORT,
                Err(JournalError::RecordInvalid) => RECORD_INVALID,
            }
        }
    }
}

// How many octets of a journal are its mark, its version and whole records: what it is cut to before anything is appended.
pub fn powerlink_journal_whole_len(version: u16, len: usize, whole: &mut usize) -> u8
    ensures { JournalWhole version len result whole.old whole.new }
{
    match whole_len(version, len) {
        Ok(n) => {
            *whole = n;
            0
        }
        Err(WholeLenError::TooShort) => NOT_A_JOURNAL,
        Err(WholeLenError::UnknownVersion) => UNKNOWN_VERSION,
    }
}
