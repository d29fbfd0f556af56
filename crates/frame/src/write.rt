// Writing the two headers, and a frame with its Ethernet header in front (powerlink-rs: CodecHelpers).
ghost use Rattle.section.specs.Write.{Writes, Serializes};
ghost use Rattle.types.specs.Header.{eth_bytes};
ghost use Rattle.frame.specs.Write.{pl_header_bytes, frame_bytes, under_table};

use crate::PowerlinkFrame;
use section::write;
use services::table::Services;
use types::NodeId;
use types::basic::EthernetHeader;
use types::hal::PowerlinkError;
use types::message_type::MessageType;

// Writes the 14 octets of an Ethernet header, if they fit.
pub fn serialize_eth_header(
    header: EthernetHeader,
    target: &mut [u8],
) -> Result<usize, PowerlinkError>
    ensures { Writes (eth_bytes header) result target.old target.new }
{
    write(&header.to_bytes(), target)
}

// Writes the 3 octets that every section begins with, if they fit.
pub fn serialize_pl_header(
    message_type: MessageType,
    destination: NodeId,
    source: NodeId,
    target: &mut [u8],
) -> Result<usize, PowerlinkError>
    ensures { Writes (pl_header_bytes message_type destination source) result target.old target.new }
{
    let octets = [u8::from(message_type), destination.0, source.0];
    write(&octets, target)
}

// Writes a whole frame, if it fits and the table holds an ASnd's service: its Ethernet header, its section and its payload.
#[tactic(auto, unfolding(crate::specs::Write::frame_bytes))]
pub fn serialize_frame(
    services: &Services,
    eth_header: EthernetHeader,
    frame: PowerlinkFrame,
    payload: &[u8],
    target: &mut [u8],
) -> Result<usize, PowerlinkError>
    ensures { Serializes (under_table services.now frame (frame_bytes eth_header frame payload.now)) result target.old target.new }
{
    frame.serialize_behind(services, &eth_header.to_bytes(), payload, target)
}
