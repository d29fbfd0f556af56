// The octets of the state: control octets, then a ring of records. The open batch is the ring's first records, the waiting
// ones follow. The ring of `collector` has other places and no open batch: what both share is `records`.
ghost use Rattle.std.specs.Prelude.{◌≡◌, ◌<◌, ltb};
ghost use Rattle.reporter.specs.Layout.{en_of, start_of, open_of, waiting_of, record_place, entry_in, raised_bytes, closed_bytes};
ghost use Rattle.reporter.specs.Rules.{queue_length, is_raisable};

use crate::{
    BATCH_LEN, CONTROL_LEN, EN_AT, OPEN_AT, PLACES, QUEUE_LEN, RECORD_LEN, Reporter, START_AT,
    WAITING_AT,
};
use error_entry::ErrorEntry;
use records::{get, put};

#[tactic(auto, unfolding(crate::specs::Layout::en_of))]
pub(crate) fn en(state: &Reporter) -> bool
    ensures { result ≡ en_of state.now }
{
    state[EN_AT] % 2 == 1
}

#[tactic(auto, unfolding(crate::specs::Layout::start_of))]
pub(crate) fn start(state: &Reporter) -> u8
    ensures { result ≡ start_of state.now }
{
    state[START_AT] % PLACES
}

// This and `waiting` are a line each: one for both would take the place and the most of each, and every caller would name them.
#[tactic(auto, unfolding(crate::specs::Layout::open_of))]
pub(crate) fn open(state: &Reporter) -> u8
    ensures { result ≡ open_of state.now }
{
    state[OPEN_AT].min(BATCH_LEN)
}

#[tactic(auto, unfolding(crate::specs::Layout::waiting_of))]
pub(crate) fn waiting(state: &Reporter) -> u8
    ensures { result ≡ waiting_of state.now }
{
    state[WAITING_AT].min(QUEUE_LEN)
}

// Whether one more entry may wait.
pub(crate) fn has_room(state: &Reporter) -> bool
    ensures { result ≡ ltb (waiting_of state.now) queue_length }
{
    waiting(state) < QUEUE_LEN
}

// Where the record at a place of the ring begins.
fn record_place(place: u8) -> usize
    ensures { result ≡ record_place place }
{
    CONTROL_LEN + RECORD_LEN * ((place % PLACES) as usize)
}

// The entry at a place of the ring.
#[tactic(auto, unfolding(records::specs::Records::record_at))]
pub(crate) fn entry_at(state: &Reporter, place: u8) -> ErrorEntry
    ensures { result ≡ entry_in state.now place }
{
    ErrorEntry::or_terminator(get(state, record_place(place)))
}

// Whether an entry may be raised.
#[tactic(auto, unfolding(crate::specs::Rules::is_raisable))]
pub(crate) fn raisable(entry: ErrorEntry) -> bool
    ensures { result ≡ is_raisable entry }
{
    let entry_type = entry.entry_type;
    !entry_type.mode.is_terminator() && entry_type.profile < 0x1000
}

// Puts an entry behind the waiting ones.
#[tactic(auto, using(crate::proofs::Ranges::start_small, crate::proofs::Ranges::open_small), unfolding(crate::specs::Layout::raised_bytes))]
pub(crate) fn push(state: &mut Reporter, entry: ErrorEntry)
    requires { waiting_of state.old < queue_length }
    ensures { state.new ≡ raised_bytes entry state.old }
{
    let n = waiting(state);
    let at = record_place(start(state) + open(state) + n);
    let _ = put(state, at, entry);
    state[WAITING_AT] = n + 1;
}

// Closes the open batch: the ring begins behind it.
#[tactic(auto, using(crate::proofs::Ranges::start_small, crate::proofs::Ranges::open_small))]
pub(crate) fn close(state: &mut Reporter)
    ensures { state.new ≡ closed_bytes state.old }
{
    state[START_AT] = (start(state) + open(state)) % PLACES;
    state[OPEN_AT] = 0;
}
