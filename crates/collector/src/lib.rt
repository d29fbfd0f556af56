// The managing node's side of error signaling (EPSG DS 301, 6.5; 01: the box). For each of up to four registered
// controlled nodes (01: heads) it keeps the bit EA, exception acknowledge, and a book of up to 64 error entries.
//
// Its state is octets that the caller lends. What they mean is told in specs/Layout.antt; every pattern means something,
// and all zeros mean a fresh state.
#![tactic(auto)]

ghost use Rattle.std.specs.Prelude.{◌≡◌};
ghost use Rattle.collector.specs.Calls.{Fresh, Registers, Reads, Flags, Requests, Takes};
ghost use Rattle.collector.specs.Layout.{account_of};
ghost use Rattle.collector.specs.Rules.{is_registered};
ghost use Rattle.collector.specs.declared.ReadError.TheVariants.{Frame};
ghost use Rattle.collector.specs.declared.RequestError.TheVariants as requesting;

mod asking;
mod book;
mod reading;
mod state;

use asking::write_request;
use book::take_first;
use codec::{PayloadPlace, payload};
use control::asnd::PAYLOAD_AT;
use control::soa::SoAFlags;
use error_entry::ErrorEntry;
use reading::{hear, read_status};
use records::ENTRY_LEN;
use services::table::Services;
use state::{NODES, find, slot};
use types::basic::MacAddress;
use types::hal::PowerlinkError;
use types::states::NmtState;
use types::{EPLVersion, NodeId};

// The entries that a book holds.
pub const BOOK_LEN: usize = 64;

pub const COLLECTOR_LEN: usize = BLOCK_LEN * NODES + BOX_LEN;

// The octets of the box as a whole, behind the blocks: none.
const BOX_LEN: usize = 0;

// A node's block: its control octets, then its book's records.
const BLOCK_LEN: usize = CONTROL_LEN + RECORD_LEN * BOOK_LEN;

const CONTROL_LEN: usize = 16;

// The control octets: the node ID (0: the block is free), EA, the book's start and its count; the others are spare.
const NODE_AT: usize = 0;

const EA_AT: usize = 1;

const START_AT: usize = 2;

const COUNT_AT: usize = 3;

// A record: the entry.
const RECORD_LEN: usize = ENTRY_LEN;

// BOOK_LEN, of the type of a start and a count.
const PLACES: u8 = BOOK_LEN as u8;

// 01's box. That it loses and repeats no entry is said of a state that goes on from its own last octets, with heads that
// began when it did. So it is saved after each call that has changed it and before any later frame leaves:
// - saved before a reading whose request went out: the head has closed that batch, so it is lost; the next one has the EN
//   that the old EA equals, is known, and lost too;
// - begun anew while a head's second batch is open: EN is 0, EA is 0, the batch is known and lost;
// - begun anew while a head's first batch is open, handed out by the old box: booked again, and listed twice.
// What Take hands out goes into a journal whose length is saved with the state; after a restart the journal is cut to it.
// Octets and no struct, since C lends them and saves them.
pub type Collector = [u8; COLLECTOR_LEN];

// Why a node gets no place.
#[derive(Clone, Copy, Debug, PartialEq, Eq)]
pub enum RegisterError {
    IdOutOfRange,
    IdRegistered,
    // Four nodes are registered.
    Full,
}

// What reading a StatusResponse comes to: its batch is booked; or EN equals EA, so its batch is known.
#[derive(Clone, Copy, Debug, PartialEq, Eq)]
pub enum ReadOutcome {
    Booked,
    Known,
}

// Why nothing is booked.
#[derive(Clone, Copy, Debug, PartialEq, Eq)]
pub enum ReadError {
    // The frame cannot be read, or its payload is no StatusResponse that can be.
    Frame(PowerlinkError),
    NotStatusResponse,
    NotRegistered,
    BookFull,
}

impl From<PowerlinkError> for ReadError {
    ghost from_gives = { λ e r. r ≡ Frame e };

    fn from(error: PowerlinkError) -> ReadError {
        ReadError::Frame(error)
    }
}

// What a request holds beside the node and EA.
#[derive(Clone, Copy, Debug, PartialEq, Eq)]
pub struct RequestFields {
    pub source_mac: MacAddress,
    pub nmt_state: NmtState,
    pub epl_version: EPLVersion,
}

// Why no request is written.
#[derive(Clone, Copy, Debug, PartialEq, Eq)]
pub enum RequestError {
    NotRegistered,
    Frame(PowerlinkError),
}

impl From<PowerlinkError> for RequestError {
    ghost from_gives = { λ e r. r ≡ requesting.Frame e };

    fn from(error: PowerlinkError) -> RequestError {
        RequestError::Frame(error)
    }
}

// Why no entry is handed out.
#[derive(Clone, Copy, Debug, PartialEq, Eq)]
pub enum TakeError {
    NotRegistered,
    NothingBooked,
}

// Makes a fresh state: no node is registered.
pub fn new(state: &mut Collector)
    ensures { Fresh state.new }
{
    *state = [0u8; COLLECTOR_LEN];
}

// Gives a node a place, with EA 0 and an empty book.
pub fn register(state: &mut Collector, id: NodeId) -> Result<(), RegisterError>
    ensures { Registers id result state.old state.new }
{
    if !id.is_cn() {
        return Err(RegisterError::IdOutOfRange);
    }
    if find(state, id.0).is_some() {
        return Err(RegisterError::IdRegistered);
    }
    let Some(block) = find(state, 0) else {
        return Err(RegisterError::Full);
    };
    block.place_node(state, id.0);
    Ok(())
}

// Whether a node is registered.
#[tactic(auto, unfolding(crate::specs::Layout::account_of))]
pub fn is_registered(state: &Collector, id: NodeId) -> bool
    ensures { result ≡ is_registered (account_of state.now id.0) }
{
    slot(state, id.0).is_some()
}

// Reads a frame: the batch of a registered node's StatusResponse goes into its book, whole but for status entries, unless
// it is there already.
pub fn read(
    state: &mut Collector,
    services: &Services,
    buffer: &[u8],
) -> Result<ReadOutcome, ReadError>
    ensures { Reads services.now buffer.now result state.old state.new }
{
    let Some(source) = hear(services, buffer)? else {
        return Err(ReadError::NotStatusResponse);
    };
    // The payload from octet 4 of the section on, untrimmed: an answer without entries ends in zeros.
    let place = PayloadPlace {
        start: PAYLOAD_AT,
        len: buffer.len(),
    };
    read_status(state, source.0, payload(place, buffer))
}

// What every frame of the managing node to a registered node has to carry: EA in a PReq to it, EA and ER in an SoA with it as
// target. Any other EA can close a batch that is not booked.
#[tactic(auto, unfolding(crate::specs::Layout::account_of))]
pub fn flags(state: &Collector, id: NodeId) -> Option<SoAFlags>
    ensures { Flags id result state.now }
{
    let block = slot(state, id.0)?;
    Some(SoAFlags {
        ea: block.ea(state),
        er: false,
    })
}

// Writes the SoA that asks a registered node for its StatusResponse and tells it EA.
pub fn request(
    state: &Collector,
    id: NodeId,
    fields: RequestFields,
    target: &mut [u8],
) -> Result<usize, RequestError>
    ensures { Requests id fields result state.now target.old target.new }
{
    let Some(block) = slot(state, id.0) else {
        return Err(RequestError::NotRegistered);
    };
    write_request(id, fields, block.ea(state), target)
}

// Hands out the oldest entry of a node's book; its place is used again.
#[tactic(auto, using(crate::proofs::CallLaws::take_laws))]
pub fn take(state: &mut Collector, id: NodeId) -> Result<ErrorEntry, TakeError>
    ensures { Takes id result state.old state.new }
{
    let Some(block) = slot(state, id.0) else {
        return Err(TakeError::NotRegistered);
    };
    if block.count(state) == 0 {
        return Err(TakeError::NothingBooked);
    }
    Ok(take_first(state, block))
}
