// Reading a node's StatusResponse.
ghost use Rattle.std.specs.Prelude.{◌≡◌};
ghost use Rattle.collector.specs.Calls.{Books, ReadsStatus};
ghost use Rattle.collector.specs.Rules.{response_in};

use crate::book::{count_entries, push_entries};
use crate::state::{Block, slot};
use crate::{Collector, PLACES, ReadError, ReadOutcome};
use codec::read_frame;
use frame::PowerlinkFrame;
use services::STATUS_RESPONSE;
use services::table::Services;
use status_response::fields::read_fields;
use types::NodeId;
use types::hal::PowerlinkError;

// A StatusResponse with its source, or another frame.
pub(crate) fn hear(services: &Services, buffer: &[u8]) -> Result<Option<NodeId>, PowerlinkError>
    ensures { result ≡ response_in services.now buffer.now }
{
    let frame = read_frame(services, buffer)?;
    let PowerlinkFrame::ASnd(f) = frame else {
        return Ok(None);
    };
    if f.service_id.0 != STATUS_RESPONSE {
        return Ok(None);
    }
    Ok(Some(f.source))
}

// Reads the StatusResponse of the node `source`.
pub(crate) fn read_status(
    state: &mut Collector,
    source: u8,
    payload: &[u8],
) -> Result<ReadOutcome, ReadError>
    ensures { ReadsStatus source payload.now result state.old state.new }
{
    let Some(block) = slot(state, source) else {
        return Err(ReadError::NotRegistered);
    };
    let fields = read_fields(payload)?;
    book(state, block, fields.en_flag, payload)
}

// Books what is to be booked of a payload with the bit EN: all of it, or nothing.
#[tactic(auto, using(crate::proofs::AnswerLaws::book_laws), unfolding(crate::specs::Layout::booked_bytes))]
fn book(
    state: &mut Collector,
    block: Block,
    en: bool,
    payload: &[u8],
) -> Result<ReadOutcome, ReadError>
    ensures { Books block en payload.now result state.old state.new }
{
    if en == block.ea(state) {
        return Ok(ReadOutcome::Known);
    }
    let n = count_entries(payload);
    let free = usize::from(PLACES - block.count(state));
    if free < n {
        return Err(ReadError::BookFull);
    }
    push_entries(state, block, payload);
    block.set_ea(state, en);
    Ok(ReadOutcome::Booked)
}
