// Writing a StatusResponse whose entries are given as their octets, for callers that have no records. Four at a time are read
// and lent to the writer of a list, so that no heap is needed.
ghost use Rattle.std.specs.Prelude.{◌≡◌, ◌+◌, ◌%◌, ◌≤◌, eqb, length};
ghost use Rattle.std.proofs.lemmas.List.Edits.{sets};
ghost use Rattle.error_entry.specs.Entry.{entry_length};
ghost use Rattle.status_response.specs.Given.{WritesWhole, entries_given, given_fit};
ghost use Rattle.status_response.specs.Fields.{front_length, head_bytes};
ghost use Rattle.status_response.specs.Parts.{batch_of};
ghost use Rattle.status_response.specs.Steps.{status_bytes, status_length};

use crate::bit_field::StaticErrorBitField;
use crate::entries::{put_terminator, status_len, write_entries};
use crate::fields::StatusFields;
use error_entry::{ENTRY_LEN, ErrorEntry};
use octets::slices::{put, tail};
use types::hal::PowerlinkError;

// The octets of four entries.
const GROUP_LEN: usize = 4 * ENTRY_LEN;

// Whether `entries` are whole entries, and their payload fits into `len` octets: what `serialize` tests.
#[tactic(auto, unfolding(crate::specs::Parts::entries_fit))]
pub fn fits(entries: &[u8], len: usize) -> bool
    ensures { result ≡ given_fit entries.now len }
{
    if entries.len() % ENTRY_LEN != 0 {
        return false;
    }
    crate::entries::fits(entries.len() / ENTRY_LEN, len)
}

// Four entries, terminators in the place of those that are not there. They are written out for the reason that `reporter` has for its
// four (`batch::first_four`): of a `map` over the places the check does not find what it gives.
fn four(s: &[u8]) -> [ErrorEntry; 4]
    ensures { result ≡ batch_of 4 s.now }
{
    [
        ErrorEntry::or_terminator(ErrorEntry::deserialize(s)),
        ErrorEntry::or_terminator(ErrorEntry::deserialize(tail(s, ENTRY_LEN))),
        ErrorEntry::or_terminator(ErrorEntry::deserialize(tail(s, 2 * ENTRY_LEN))),
        ErrorEntry::or_terminator(ErrorEntry::deserialize(tail(s, 3 * ENTRY_LEN))),
    ]
}

// Writes the four entries that `s` is behind the front of `target`, which stays. A number that the compiler knows spares it
// the loop over them.
#[tactic(auto, using(crate::proofs::GivenLaws::whole_put))]
fn put_four(s: &[u8], target: &mut [u8])
    requires { (length s.now ≡ 80) × (status_length 4 ≤ length target.old) }
    ensures { target.new ≡ sets target.old front_length s.now }
{
    write_entries(&four(s), target);
}

// The same of the up to three that are left.
#[tactic(auto, using(crate::proofs::GivenLaws::group_put))]
fn put_rest(s: &[u8], target: &mut [u8])
    requires { (length s.now % entry_length ≡ 0) × ((length s.now ≤ 80) × (front_length + length s.now + entry_length ≤ length target.old)) }
    ensures { target.new ≡ sets target.old front_length s.now }
{
    let batch = four(s);
    write_entries(&batch[..s.len() / ENTRY_LEN], target);
}

// Writes all entries there, four at a time. With `for` over `chunks`, here and in `write_entries`, 60 entries took 1.6 of the Rust's time, and not 0.55.
fn put_groups(entries: &[u8], target: &mut [u8])
    requires { (length entries.now % entry_length ≡ 0) × (front_length + length entries.now + entry_length ≤ length target.old) }
    ensures { target.new ≡ sets target.old front_length entries.now }
{
    let len = entries.len();
    let mut at = 0;
    while GROUP_LEN <= len - at {
        put_four(&entries[at..at + GROUP_LEN], &mut target[at..]);
        at += GROUP_LEN;
    }
    if at < len {
        put_rest(&entries[at..], &mut target[at..]);
    }
}

// Writes the payload, if it fits. A rest that is shorter than an entry is an entry that is too short.
#[tactic(auto, using(crate::proofs::GivenLaws::status_refused, crate::proofs::GivenLaws::status_written))]
pub fn serialize(
    fields: StatusFields,
    field: StaticErrorBitField,
    entries: &[u8],
    target: &mut [u8],
) -> Result<usize, PowerlinkError>
    ensures { WritesWhole (eqb (length entries.now % entry_length) 0) (status_bytes (head_bytes fields field) (entries_given entries.now)) result target.old target.new }
{
    if !fits(entries, target.len()) {
        return Err(PowerlinkError::BufferTooShort);
    }
    let n = entries.len() / ENTRY_LEN;
    put(target, 0, &fields.to_bytes(field));
    put_groups(entries, target);
    put_terminator(n, target);
    Ok(status_len(n))
}
