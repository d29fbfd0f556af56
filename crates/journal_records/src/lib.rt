// The journal that booked error entries are kept in (01, "Journal"): writing its records, and listing them as text.
#![tactic(auto)]

ghost use Rattle.std.specs.Prelude.{◌≡◌};
ghost use Rattle.journal_records.specs.Record.{WritesRecord, valid_record};
ghost use Rattle.journal_records.specs.Whole.{TellsWhole};

pub mod listing;
mod text;

use error_entry::{ENTRY_LEN, ErrorEntry};
use types::NodeId;

// The version whose records are written and listed.
pub(crate) const VERSION: u16 = 1;

// The octets of mark and version.
pub const JOURNAL_START_LEN: usize = 5;

// The octets of a record: the node ID, and the entry's 20.
pub const JOURNAL_RECORD_LEN: usize = 1 + ENTRY_LEN;

// Why no record is written.
#[derive(Clone, Copy, Debug, PartialEq, Eq)]
pub enum JournalError {
    BufferTooShort,
    // The entry's mode is that of a terminator, or the ID is not that of a controlled node.
    RecordInvalid,
}

// Why a journal has no whole part.
#[derive(Clone, Copy, Debug, PartialEq, Eq)]
pub enum WholeLenError {
    // Mark and version are not there.
    TooShort,
    UnknownVersion,
}

// Writes one record, if it fits and is one that listing takes.
// Node and entry come apart, as C gives them and `collector::take` has them: a struct of both would be made for the call alone.
pub fn write(node: NodeId, entry: ErrorEntry, target: &mut [u8]) -> Result<usize, JournalError>
    ensures { WritesRecord node entry result target.old target.new }
{
    if target.len() < JOURNAL_RECORD_LEN {
        return Err(JournalError::BufferTooShort);
    }
    if !valid(node, entry) {
        return Err(JournalError::RecordInvalid);
    }
    let _ = entry.serialize(&mut target[1..]);
    target[0] = node.0;
    Ok(JOURNAL_RECORD_LEN)
}

// Whether a record holds an entry of a controlled node.
#[tactic(auto, unfolding(crate::specs::Record::valid_record))]
fn valid(node: NodeId, entry: ErrorEntry) -> bool
    ensures { result ≡ valid_record node.0 entry }
{
    node.is_cn() && !entry.entry_type.mode.is_terminator()
}

// How many octets of a journal are its mark, its version and whole records. A writer that was stopped, by a power cut say, may
// leave a record torn at the end: before anything is appended, the journal is cut to this length. Else the records behind the
// torn one are read from a wrong place, and faults are listed that nobody raised.
#[tactic(auto, unfolding(crate::specs::Whole::whole_len, crate::specs::Listing::layout_of, crate::specs::Listing::version1))]
pub fn whole_len(version: u16, len: usize) -> Result<usize, WholeLenError>
    ensures { TellsWhole version len result }
{
    if len < JOURNAL_START_LEN {
        return Err(WholeLenError::TooShort);
    }
    if version != VERSION {
        return Err(WholeLenError::UnknownVersion);
    }
    let records = (len - JOURNAL_START_LEN) / JOURNAL_RECORD_LEN;
    Ok(JOURNAL_START_LEN + JOURNAL_RECORD_LEN * records)
}
