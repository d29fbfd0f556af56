// A controlled node's side of error signaling (EPSG DS 301, 6.5; 01: the head). It collects error entries, reports them
// in StatusResponses, batch by batch, and closes a batch once the managing node has acknowledged it: the bit EN, exception
// new, flips with each batch, and EA, exception acknowledge, comes back equal.
//
// Its state is octets that the caller lends. What they mean is told in specs/Layout.antt; every pattern means something.
#![tactic(auto)]

ghost use Rattle.std.specs.Prelude.{◌≡◌, length};
ghost use Rattle.reporter.specs.Calls.{Makes, Raises, Answers, Reads};
ghost use Rattle.reporter.specs.Layout.{head_of};
ghost use Rattle.reporter.specs.Rules.{opened, answer_length};

mod acknowledge;
mod batch;
mod state;

use acknowledge::{acknowledge, hear};
use batch::{answer_frame, carried, open_batch};
use control::asnd::PAYLOAD_AT;
use error_entry::ErrorEntry;
use records::ENTRY_LEN;
use section::MIN_FRAME;
use services::table::Services;
use state::{has_room, push, raisable};
use status_response::bit_field::StaticErrorBitField;
use status_response::fields::FRONT_LEN;
use types::NodeId;
use types::basic::MacAddress;
use types::hal::PowerlinkError;
use types::poll_flags::{PRFlag, RSFlag};
use types::states::NmtState;

pub const REPORTER_LEN: usize = CONTROL_LEN + RECORD_LEN * (PLACES as usize);

// The octets in front of the records.
const CONTROL_LEN: usize = 8;

// They are: the node ID, EN, the ring's start, how many entries are open and how many wait; the others are spare.
const ID_AT: usize = 0;

const EN_AT: usize = 1;

const START_AT: usize = 2;

const OPEN_AT: usize = 3;

const WAITING_AT: usize = 4;

// A record: the entry.
const RECORD_LEN: usize = ENTRY_LEN;

// The entries of the largest batch.
const BATCH_LEN: u8 = 4;

// The entries that may wait.
const QUEUE_LEN: u8 = 16;

// Places for both.
const PLACES: u8 = BATCH_LEN + QUEUE_LEN;

// An answer's octets in front of its entries, and the terminator behind them.
const BARE_ANSWER_LEN: usize = PAYLOAD_AT + FRONT_LEN + ENTRY_LEN;

// 01's head. That none of its entries is lost or repeated is said of a state that goes on from its own last octets, with a
// box that began when it did. So it is saved after each call that has changed it and before any later frame leaves, after
// `answer` before that answer leaves:
// - saved before an answer that was booked: what is raised since joins the batch, under the EN that is booked; the batch
//   is known and closed, and what has joined is lost;
// - begun anew after an odd number of booked batches: EA is 1 and so is the first EN; that batch is known and lost.
// No other StatusResponse goes out under its ID, since each tells the box EN.
// C lends these octets: so they are an array with a ring in it, and no struct with entries.
pub type Reporter = [u8; REPORTER_LEN];

// Why no state is made.
#[derive(Clone, Copy, Debug, PartialEq, Eq)]
pub enum NewError {
    IdOutOfRange,
}

// Why an entry is not raised.
#[derive(Clone, Copy, Debug, PartialEq, Eq)]
pub enum RaiseError {
    // The mode is the terminator's, or the profile has more than 12 bits.
    EntryInvalid,
    // Bit 15 of its type is set: a node of ours reports history entries alone (02, CR 2).
    StatusEntry,
    // 16 entries are waiting.
    QueueFull,
}

// What an answer holds beside the entries and EN.
#[derive(Clone, Copy, Debug, PartialEq, Eq)]
pub struct AnswerFields {
    pub source_mac: MacAddress,
    pub dest_mac: MacAddress,
    pub ec_flag: bool,
    pub pr: PRFlag,
    pub rs: RSFlag,
    pub nmt_state: NmtState,
    pub static_error_bit_field: StaticErrorBitField,
}

// What reading a frame comes to: the open batch is acknowledged and closed; EA was read and closes nothing; or the frame
// holds no EA for this node.
#[derive(Clone, Copy, Debug, PartialEq, Eq)]
pub enum ReadOutcome {
    Closed,
    Kept,
    Ignored,
}

// Makes a fresh state for a node.
pub fn new(state: &mut Reporter, id: NodeId) -> Result<(), NewError>
    ensures { Makes id result state.old state.new }
{
    if !id.is_cn() {
        return Err(NewError::IdOutOfRange);
    }
    *state = [0u8; REPORTER_LEN];
    state[ID_AT] = id.0;
    Ok(())
}

// An entry joins the waiting ones, last.
pub fn raise(state: &mut Reporter, entry: ErrorEntry) -> Result<(), RaiseError>
    ensures { Raises entry result state.old state.new }
{
    if !raisable(entry) {
        return Err(RaiseError::EntryInvalid);
    }
    if entry.entry_type.is_status_entry {
        return Err(RaiseError::StatusEntry);
    }
    if !has_room(state) {
        return Err(RaiseError::QueueFull);
    }
    push(state, entry);
    Ok(())
}

// Writes a StatusResponse with the open batch. Where none is open and entries wait, the first four, or all if fewer,
// become it, and EN flips; a refused answer leaves that undone. It takes the table as every writer of an ASnd does; since
// every table holds its service, it does not have to look.
pub fn answer(
    state: &mut Reporter,
    services: &Services,
    fields: AnswerFields,
    target: &mut [u8],
) -> Result<usize, PowerlinkError>
    ensures { Answers services.now fields result state.old state.new target.old target.new }
{
    let n = answer_frame(state, fields, target)?;
    open_batch(state);
    Ok(n)
}

// EN, which a PRes of this node carries too.
#[tactic(auto, unfolding(crate::specs::Layout::head_of))]
pub fn en(state: &Reporter) -> bool
    ensures { result ≡ (head_of state.now).en }
{
    state::en(state)
}

// How many octets the next answer takes.
#[tactic(auto, using(crate::proofs::Meaning::carried_length))]
pub fn answer_len(state: &Reporter) -> usize
    ensures { result ≡ answer_length (length (opened (head_of state.now)).batch) }
{
    let n = carried(state) as usize;
    if n == 0 {
        MIN_FRAME
    } else {
        BARE_ANSWER_LEN + ENTRY_LEN * n
    }
}

// Reads a frame: a PReq to this node or an SoA with it as target, from the managing node, gives EA.
#[tactic(auto, unfolding(crate::specs::Layout::head_of))]
pub fn read(
    state: &mut Reporter,
    services: &Services,
    buffer: &[u8],
) -> Result<ReadOutcome, PowerlinkError>
    ensures { Reads services.now buffer.now result state.old state.new }
{
    match hear(services, state[ID_AT], buffer)? {
        Some(ea) => Ok(acknowledge(state, ea)),
        None => Ok(ReadOutcome::Ignored),
    }
}
