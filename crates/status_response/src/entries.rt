// Writing a StatusResponse: its entries come as a lent slice of records.
ghost use Rattle.std.specs.Prelude.{◌≡◌, ◌≤◌, length, take, replicate, leb};
ghost use Rattle.std.proofs.lemmas.List.Edits.{sets};
ghost use Rattle.std.specs.Int.{w64};
ghost use Rattle.std.proofs.Common.{Fits};
ghost use Rattle.section.specs.Write.{Writes};
ghost use Rattle.error_entry.specs.Entry.{entry_length, entry_bytes};
ghost use Rattle.status_response.specs.Fields.{front_length, head_bytes};
ghost use Rattle.status_response.specs.Given.{WritesWhole};
ghost use Rattle.status_response.specs.Parts.{entries_answer, entries_fit, entries_put, entry_place, terminated};
ghost use Rattle.status_response.specs.Steps.{status_bytes, status_length};

use crate::bit_field::StaticErrorBitField;
use crate::fields::{FRONT_LEN, StatusFields};
use error_entry::{ENTRY_LEN, ErrorEntry};
use octets::slices::put;
use types::hal::PowerlinkError;

// The smallest payload: what stands in front, and the terminator.
const EMPTY_LEN: usize = FRONT_LEN + ENTRY_LEN;

// How many octets a payload of `n` entries has, where a usize holds that number.
pub(crate) fn status_len(n: usize) -> usize
    requires { Fits w64 (status_length n) }
    ensures { result ≡ status_length n }
{
    EMPTY_LEN + ENTRY_LEN * n
}

// Whether `n` entries and the terminator fit into `len` octets, behind what stands in front. `n` may be any number, and a product
// of it could wrap: so the length is divided. Behind the first test the compiler knows that there is room for the front.
#[tactic(auto, unfolding(crate::specs::Parts::entries_fit))]
pub(crate) fn fits(n: usize, len: usize) -> bool
    ensures { result ≡ entries_fit n len }
{
    if len < EMPTY_LEN {
        return false;
    }
    n <= (len - EMPTY_LEN) / ENTRY_LEN
}

// Writes the octets of one entry at its place. A part of known length spares a test for each field.
fn put_entry(e: ErrorEntry, i: usize, target: &mut [u8])
    requires { status_length i ≤ length target.old }
    ensures { target.new ≡ sets target.old (entry_place i) (entry_bytes e) }
{
    let at = FRONT_LEN + ENTRY_LEN * i;
    let _ = e.serialize(&mut target[at..at + ENTRY_LEN]);
}

// Writes the terminator behind `n` entries.
pub(crate) fn put_terminator(n: usize, target: &mut [u8])
    requires { status_length n ≤ length target.old }
    ensures { target.new ≡ sets target.old (entry_place n) (replicate entry_length 0) }
{
    let zeros = [0u8; ENTRY_LEN];
    let at = FRONT_LEN + ENTRY_LEN * n;
    put(&mut target[at..at + ENTRY_LEN], 0, &zeros);
}

// Writes the terminator behind `n` entries, if it fits, and answers for them all.
#[tactic(auto, unfolding(crate::specs::Parts::entries_fit))]
fn finish(n: usize, target: &mut [u8]) -> Result<usize, PowerlinkError>
    ensures { (result ≡ entries_answer n (length target.old)) × (target.new ≡ terminated n target.old) }
{
    let len = target.len();
    if fits(n, len) {
        put_terminator(n, target);
        return Ok(status_len(n));
    }
    Err(PowerlinkError::BufferTooShort)
}

// Writes each entry at its place. With `for` the writing of a group is slower (`given::put_groups`).
pub(crate) fn write_entries(entries: &[ErrorEntry], target: &mut [u8])
    requires { status_length (length entries.now) ≤ length target.old }
    ensures { target.new ≡ entries_put entries.now target.old (length entries.now) }
{
    let n = entries.len();
    let mut i = 0usize;
    while i < n {
        put_entry(entries[i], i, target);
        i += 1;
    }
}

// Writes the entries and the terminator behind the front of `target`, which stays, if all of them fit.
fn write_list(entries: &[ErrorEntry], target: &mut [u8]) -> Result<usize, PowerlinkError>
    ensures { Writes (status_bytes (take front_length target.old) entries.now) result target.old target.new }
{
    let n = entries.len();
    let len = target.len();
    if fits(n, len) {
        write_entries(entries, target);
    }
    finish(n, target)
}

// Writes the payload of a StatusResponse, if it fits: what stands in front last, so that a refusal has touched nothing.
// The fields and the error field come apart, as who answers and C have them: a struct of both would be made for the call alone.
pub fn serialize(
    fields: StatusFields,
    field: StaticErrorBitField,
    entries: &[ErrorEntry],
    target: &mut [u8],
) -> Result<usize, PowerlinkError>
    ensures { Writes (status_bytes (head_bytes fields field) entries.now) result target.old target.new }
{
    let len = write_list(entries, target)?;
    put(target, 0, &fields.to_bytes(field));
    Ok(len)
}

// The same as `serialize`, of the first `n` entries of a batch. A batch that has fewer is too short: a slice of the first n would ask of
// the caller that they are there.
pub fn serialize_batch(
    fields: StatusFields,
    field: StaticErrorBitField,
    batch: [ErrorEntry; 4],
    n: usize,
    target: &mut [u8],
) -> Result<usize, PowerlinkError>
    ensures { WritesWhole (leb n 4) (status_bytes (head_bytes fields field) (take n batch)) result target.old target.new }
{
    if 4 < n {
        return Err(PowerlinkError::BufferTooShort);
    }
    serialize(fields, field, &batch[..n], target)
}
