// The request that asks a node for its StatusResponse.
ghost use Rattle.std.specs.Prelude.{◌≡◌};
ghost use Rattle.section.specs.Write.{overwritten};
ghost use Rattle.collector.specs.Rules.{request_frame, request_written};

use crate::{RequestError, RequestFields};
use control::soa::{SoAFlags, SoAFrame};
use section::write_behind;
use types::NodeId;
use types::requested_service::RequestedServiceId;

// Writes the SoA to the node `id` with EA, if it fits.
#[tactic(auto, unfolding(control::specs::SoA::soa_section, crate::specs::Rules::request_frame, frame::specs::Write::frame_bytes))]
pub(crate) fn write_request(
    id: NodeId,
    fields: RequestFields,
    ea: bool,
    target: &mut [u8],
) -> Result<usize, RequestError>
    ensures { (result ≡ request_written (request_frame id.0 fields ea) target.old) × (target.new ≡ overwritten (request_frame id.0 fields ea) target.old) }
{
    let nmt_state = fields.nmt_state;
    let soa = SoAFrame::new(
        fields.source_mac,
        nmt_state,
        SoAFlags { ea, er: false },
        RequestedServiceId::StatusRequest,
        id,
        fields.epl_version,
    );
    let eth_header = soa.eth_header;
    let frame = soa.frame;
    let len = write_behind(&eth_header.to_bytes(), &frame.to_bytes(), b"", target)?;
    Ok(len)
}
