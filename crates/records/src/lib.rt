// Error entries in lent octets, each at the front of a record: the store of both ends of the error exchange.
// Octets and a place in them come apart, as in `octets`.
#![tactic(auto)]

ghost use Rattle.std.specs.Prelude.{◌≡◌, drop};
ghost use Rattle.error_entry.specs.Entry.{ReadsEntry};
ghost use Rattle.records.specs.Records.{PutsRecord};

pub use error_entry::ENTRY_LEN;
use error_entry::ErrorEntry;
use octets::slices::tail;
use types::hal::PowerlinkError;

// The entry whose record begins at an octet, if it is there whole.
pub fn get(s: &[u8], at: usize) -> Result<ErrorEntry, PowerlinkError>
    ensures { ReadsEntry (drop at s.now) result }
{
    ErrorEntry::deserialize(tail(s, at))
}

// Puts the record of an entry at an octet, if it fits there whole.
pub fn put(s: &mut [u8], at: usize, e: ErrorEntry) -> Result<usize, PowerlinkError>
    ensures { PutsRecord at e result s.old s.new }
{
    if s.len() < at {
        return Err(PowerlinkError::BufferTooShort);
    }
    e.serialize(&mut s[at..])
}
