// EA as a frame gives it, and what it does to the open batch.
ghost use Rattle.std.specs.Prelude.{◌≡◌};
ghost use Rattle.reporter.specs.Calls.{Acknowledges};
ghost use Rattle.reporter.specs.Rules.{ea_for, ea_in_frame, ea_told};

use crate::state::{close, en, open};
use crate::{ReadOutcome, Reporter};
use codec::read_frame;
use frame::PowerlinkFrame;
use services::table::Services;
use types::C_ADR_MN_DEF_NODE_ID;
use types::hal::PowerlinkError;

// EA, where the frame is from the managing node and for node `id`.
#[tactic(auto, unfolding(crate::specs::Rules::ea_for))]
fn ea_for(id: u8, source: u8, target: u8, ea: bool) -> Option<bool>
    ensures { result ≡ ea_for id source target ea }
{
    (source == C_ADR_MN_DEF_NODE_ID && target == id).then_some(ea)
}

// What a frame that was read tells node `id`.
fn hear_frame(id: u8, frame: PowerlinkFrame) -> Option<bool>
    ensures { result ≡ ea_in_frame id frame }
{
    match frame {
        PowerlinkFrame::PReq(f) => ea_for(id, f.source.0, f.destination.0, f.flags.ea),
        PowerlinkFrame::SoA(f) => ea_for(id, f.source.0, f.target_node_id.0, f.flags.ea),
        PowerlinkFrame::Soc(_) | PowerlinkFrame::PRes(_) | PowerlinkFrame::ASnd(_) => None,
    }
}

// What octets tell node `id`.
pub(crate) fn hear(
    services: &Services,
    id: u8,
    buffer: &[u8],
) -> Result<Option<bool>, PowerlinkError>
    ensures { result ≡ ea_told services.now id buffer.now }
{
    let frame = read_frame(services, buffer)?;
    Ok(hear_frame(id, frame))
}

// Closes the open batch, if there is one and EA equals EN.
pub(crate) fn acknowledge(state: &mut Reporter, ea: bool) -> ReadOutcome
    ensures { Acknowledges ea result state.old state.new }
{
    if open(state) == 0 {
        return ReadOutcome::Kept;
    }
    if en(state) != ea {
        return ReadOutcome::Kept;
    }
    close(state);
    ReadOutcome::Closed
}
