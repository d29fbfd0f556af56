// The walk over the entries of a payload: it holds the payload's bytes and the offset of the next entry.
ghost use Rattle.std.specs.Prelude.{◌≡◌};
ghost use Rattle.std.specs.Iterator.{item_count};
ghost use Rattle.status_response.specs.Fields.{front_length};
ghost use Rattle.status_response.specs.Steps.{Walks, left_of, step_at};

use crate::fields::FRONT_LEN;
use error_entry::{ENTRY_LEN, ErrorEntry};

#[derive(Clone, Copy, Debug, PartialEq, Eq)]
pub struct EntryWalk<'a> {
    pub payload: &'a [u8],
    pub offset: usize,
}

impl<'a> EntryWalk<'a> {
    // A walk from the first entry of a payload on.
    pub fn new(payload: &'a [u8]) -> EntryWalk<'a>
        ensures { (result.payload ≡ payload.entry) × (result.offset ≡ front_length) }
    {
        EntryWalk {
            payload,
            offset: FRONT_LEN,
        }
    }
}

impl<'a> Iterator for EntryWalk<'a> {
    type Item = ErrorEntry;

    ghost next_gives = { Walks };

    ghost remaining = { item_count left_of };

    #[tactic(auto, using(crate::proofs::StepsBack::entries_first, crate::proofs::StepsBack::entries_none))]
    fn next(&mut self) -> Option<ErrorEntry> {
        let (entry, offset) = step_from(self.payload, self.offset)?;
        self.offset = offset;
        Some(entry)
    }
}

// One step: the entry at an offset with the offset after it, or the end. C has no walk: it holds the offset.
#[tactic(auto, unfolding(crate::specs::Steps::step_at))]
pub fn step_from(payload: &[u8], offset: usize) -> Option<(ErrorEntry, usize)>
    ensures { result ≡ step_at payload.now offset }
{
    // A test of the place, and no `tail`: with its cut at the end, computed anew for each entry, long lists take half as long again.
    let entry = ErrorEntry::deserialize(payload.get(offset..)?).ok()?;
    let entry_type = entry.entry_type;
    if entry_type.mode.is_terminator() {
        return None;
    }
    Some((entry, offset + ENTRY_LEN))
}
