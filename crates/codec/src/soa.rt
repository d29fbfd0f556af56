// The rules of reading SoA.
ghost use Rattle.std.specs.Prelude.{◌≡◌};
ghost use Rattle.codec.specs.Verdicts.{soa_answer};
ghost use Rattle.codec.specs.SoA.{soa_of, read_soa};

use control::soa::{EA, ER, FIELDS_LEN, SERVICE_AT, STATE_AT, SoAFlags, SoAFrame};
use frame::PowerlinkFrame;
use octets::slices::byte_at;
use types::hal::PowerlinkError;
use types::requested_service::RequestedServiceId;
use types::states::NmtState;
use types::{EPLVersion, NodeId};

// The tests of a section: the codes that its fields are read with, or why it is refused.
#[tactic(auto, unfolding(crate::specs::SoA::read_soa))]
pub fn judge(s: &[u8]) -> Result<(NmtState, RequestedServiceId), PowerlinkError>
    ensures { soa_answer result s.now ≡ read_soa s.now }
{
    if s.len() < FIELDS_LEN {
        return Err(PowerlinkError::BufferTooShort);
    }
    let nmt_state = NmtState::try_from(s[STATE_AT])?;
    let req_service_id = RequestedServiceId::try_from(s[SERVICE_AT])?;
    Ok((nmt_state, req_service_id))
}

// The frame, or why it is refused.
pub(crate) fn deserialize(s: &[u8]) -> Result<PowerlinkFrame, PowerlinkError>
    ensures { result ≡ read_soa s.now }
{
    let (nmt_state, req_service_id) = judge(s)?;
    Ok(PowerlinkFrame::SoA(fields(s, nmt_state, req_service_id)))
}

// The fields of a section; octets past its end count as 0.
pub fn fields(s: &[u8], nmt_state: NmtState, req_service_id: RequestedServiceId) -> SoAFrame
    ensures { result ≡ soa_of s.now nmt_state req_service_id }
{
    let flags = byte_at(s, 4);
    SoAFrame {
        destination: NodeId(byte_at(s, 1)),
        source: NodeId(byte_at(s, 2)),
        nmt_state,
        flags: SoAFlags {
            ea: flags / EA % 2 == 1,
            er: flags / ER % 2 == 1,
        },
        req_service_id,
        target_node_id: NodeId(byte_at(s, 7)),
        epl_version: EPLVersion(byte_at(s, 8)),
    }
}
