// A node's book: a ring of records. The ring of `reporter` stays apart, having two counts and no block: one for both would be longer.
ghost use Rattle.std.specs.Prelude.{not, ◌≡◌, ◌+◌, ◌≤◌, ◌<◌, length};
ghost use Rattle.collector.specs.Layout.{count_in, start_in, entry_in, taken_bytes, pushed_bytes, pushed_all};
ghost use Rattle.collector.specs.Rules.{said_in, book_length};

use crate::state::Block;
use crate::{COUNT_AT, Collector, PLACES, START_AT};
use error_entry::ErrorEntry;
use records::{get, put};
use status_response::walk::EntryWalk;

// Hands out the oldest entry.
#[tactic(auto, unfolding(crate::specs::Layout::taken_bytes, records::specs::Records::record_at))]
pub(crate) fn take_first(state: &mut Collector, block: Block) -> ErrorEntry
    requires { 0 < count_in state.old block }
    ensures { (result ≡ entry_in state.old block (start_in state.old block)) × (state.new ≡ taken_bytes state.old block) }
{
    let first = block.start(state);
    let n = block.count(state);
    let e = ErrorEntry::or_terminator(get(state, block.record_place(first)));
    block.set_octet(state, START_AT, (first + 1) % PLACES);
    block.set_octet(state, COUNT_AT, n - 1);
    e
}

// An entry joins the book, last.
#[tactic(auto, unfolding(crate::specs::Layout::count_in, crate::specs::Layout::pushed_bytes))]
fn push(state: &mut Collector, block: Block, e: ErrorEntry)
    requires { count_in state.old block < book_length }
    ensures { (state.new ≡ pushed_bytes state.old block e) × (count_in state.new block ≡ count_in state.old block + 1) }
{
    let n = block.count(state);
    let at = block.record_place(block.start(state) + n);
    let _ = put(state, at, e);
    block.set_octet(state, COUNT_AT, n + 1);
}

// Whether an entry takes a place in the book: not where it shows a status.
fn takes_place(e: &ErrorEntry) -> bool
    ensures { result ≡ not e.now.entry_type.is_status_entry }
{
    !e.entry_type.is_status_entry
}

// How many entries of a payload are to be booked.
#[tactic(auto, unfolding(crate::specs::Rules::booked_entries, status_response::specs::Steps::entries_from, status_response::specs::Steps::status_entries), using(crate::proofs::BookableLaws::bookable_few, crate::proofs::WalkLaws::status_few))]
pub(crate) fn count_entries(payload: &[u8]) -> usize
    ensures { result ≡ length (said_in payload.now).entries }
{
    // No `filter`: its test is a branch, and where status entries stand among the others, counting a long batch takes twice as long.
    let mut n = 0usize;
    for entry in EntryWalk::new(payload) {
        n += usize::from(takes_place(&entry));
    }
    n
}

// The entries of a payload that are to be booked join the book, in order.
#[tactic(auto, unfolding(crate::specs::Layout::pushed_all, crate::specs::Rules::booked_entries, status_response::specs::Steps::entries_from, status_response::specs::Steps::status_entries))]
pub(crate) fn push_entries(state: &mut Collector, block: Block, payload: &[u8])
    requires { count_in state.old block + length (said_in payload.now).entries ≤ book_length }
    ensures { state.new ≡ pushed_all state.old block (said_in payload.now).entries }
{
    for e in EntryWalk::new(payload) {
        if takes_place(&e) {
            push(state, block, e);
        }
    }
}
