// The batch that an answer carries, and the answer's frame.
ghost use Rattle.std.specs.Prelude.{◌≡◌, ◌+◌, ◌-◌, ◌≤◌, length, replicate};
ghost use Rattle.std.proofs.lemmas.List.Edits.{sets};
ghost use Rattle.section.specs.Write.{Writes};
ghost use Rattle.reporter.specs.Layout.{head_of, opens_in, opened_bytes, carried_in, first_four};
ghost use Rattle.reporter.specs.Rules.{opened, status_fields, payload_min, filled_payload, answer_front, answer_frame};

use crate::state::{en, entry_at, open, start, waiting};
use crate::{AnswerFields, BATCH_LEN, EN_AT, ID_AT, OPEN_AT, Reporter, WAITING_AT};
use control::asnd::{ASndFrame, PAYLOAD_AT};
use error_entry::ErrorEntry;
use octets::slices::put;
use section::MIN_FRAME;
use services::{STATUS_RESPONSE, ServiceId};
use status_response::entries::serialize;
use status_response::fields::StatusFields;
use types::basic::ETH_LEN;
use types::hal::PowerlinkError;
use types::{C_ADR_BROADCAST_NODE_ID, NodeId};

// The payload that fills the smallest frame.
const PAYLOAD_MIN: usize = MIN_FRAME - PAYLOAD_AT;

// Whether an answer opens a batch: none is open, and entries wait.
fn opens(state: &Reporter) -> bool
    ensures { result ≡ opens_in state.now }
{
    open(state) == 0 && 0 < waiting(state)
}

// How many entries an answer carries.
#[tactic(auto, unfolding(crate::specs::Layout::carried_in))]
pub(crate) fn carried(state: &Reporter) -> u8
    ensures { result ≡ carried_in state.now }
{
    if opens(state) {
        waiting(state).min(BATCH_LEN)
    } else {
        open(state)
    }
}

// The first waiting entries become the open batch, and EN flips, where an answer opens one.
#[tactic(auto, using(crate::proofs::Tests::opens_laws))]
pub(crate) fn open_batch(state: &mut Reporter)
    ensures { state.new ≡ opened_bytes state.old }
{
    if !opens(state) {
        return;
    }
    let n = carried(state);
    let left = waiting(state) - n;
    state[EN_AT] = u8::from(!en(state));
    state[OPEN_AT] = n;
    state[WAITING_AT] = left;
}

// The four entries from the ring's start on, whether they are of the batch or not. They are written out, since of a `map` over
// the four places (tried) the check does not find what it gives, and its law would take more lines than these.
#[tactic(auto, using(crate::proofs::Ranges::start_small), unfolding(records::specs::Ring::ring))]
fn first_four(state: &Reporter) -> [ErrorEntry; 4]
    ensures { result ≡ first_four state.now }
{
    let at = start(state);
    [
        entry_at(state, at),
        entry_at(state, at + 1),
        entry_at(state, at + 2),
        entry_at(state, at + 3),
    ]
}

// The front of an answer's payload, but for the error field.
#[tactic(auto, using(crate::proofs::Tests::en_flips, crate::proofs::Tests::en_stays))]
fn status_fields(state: &Reporter, fields: AnswerFields) -> StatusFields
    ensures { result ≡ status_fields fields (opened (head_of state.now)).en }
{
    let en = en(state);
    StatusFields {
        en_flag: if opens(state) { !en } else { en },
        ec_flag: fields.ec_flag,
        pr: fields.pr,
        rs: fields.rs,
        nmt_state: fields.nmt_state,
    }
}

// Puts zeros behind `len` octets, up to the smallest payload, and answers how many octets there are then.
fn fill(len: usize, target: &mut [u8]) -> usize
    requires { payload_min ≤ length target.old }
    ensures { (result ≡ len + (payload_min - len)) × (target.new ≡ sets target.old len (replicate (payload_min - len) 0)) }
{
    if len < PAYLOAD_MIN {
        target[len..PAYLOAD_MIN].fill(0);
    }
    len.max(PAYLOAD_MIN)
}

// Writes an answer's payload, and behind it the zeros up to the smallest frame, if both fit. A struct of the three parameters,
// which two more have, would borrow two of them to be taken apart at once: so they come one by one.
fn write_payload(
    state: &Reporter,
    fields: AnswerFields,
    target: &mut [u8],
) -> Result<usize, PowerlinkError>
    ensures { Writes (filled_payload fields (opened (head_of state.now))) result target.old target.new }
{
    if target.len() < PAYLOAD_MIN {
        return Err(PowerlinkError::BufferTooShort);
    }
    let front = status_fields(state, fields);
    let n = carried(state) as usize;
    let batch = first_four(state);
    let len = serialize(front, fields.static_error_bit_field, &batch[..n], target)?;
    Ok(fill(len, target))
}

// Puts what stands in front of an answer's payload: the Ethernet header, and the fields of the ASnd.
#[tactic(auto, using(crate::proofs::AnswerLaws::front_put, crate::proofs::Opening::id_opened))]
fn put_front(state: &Reporter, fields: AnswerFields, target: &mut [u8])
    ensures { target.new ≡ sets target.old 0 (answer_front fields (opened (head_of state.now)).id) }
{
    let asnd = ASndFrame::new(
        fields.source_mac,
        fields.dest_mac,
        NodeId(C_ADR_BROADCAST_NODE_ID),
        NodeId(state[ID_AT]),
        ServiceId(STATUS_RESPONSE),
    );
    put(target, 0, &asnd.eth_header.to_bytes());
    put(target, ETH_LEN, &asnd.frame.to_bytes());
}

// Writes the frame of an answer, if it fits. Its payload goes first, straight to its place, since it alone can still be refused.
pub(crate) fn answer_frame(
    state: &Reporter,
    fields: AnswerFields,
    target: &mut [u8],
) -> Result<usize, PowerlinkError>
    ensures { Writes (answer_frame fields (opened (head_of state.now))) result target.old target.new }
{
    if target.len() < PAYLOAD_AT {
        return Err(PowerlinkError::BufferTooShort);
    }
    let n = write_payload(state, fields, &mut target[PAYLOAD_AT..])?;
    put_front(state, fields, target);
    Ok(PAYLOAD_AT + n)
}
