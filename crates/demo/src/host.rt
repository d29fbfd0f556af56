// The managing node's own cyclic code, which sends frames by itself beside the box's requests, and what the heads answer it.
// EA and ER of what it sends are those that the box says at that moment.
use crate::cause::Cause;
use crate::fields::{EPL_VERSION, MANAGING_NODE_ID, station};
use crate::house::SERVICE;
use crate::target::{Frame, ROOM, Target};
use crate::world::{Node, World};
use control::asnd::ASndFrame;
use control::soa::{SoAFlags, SoAFrame};
use frame::PowerlinkFrame;
use frame::write::serialize_frame;
use poll::preq::{PReqFlags, PReqFrame};
use poll::pres::{PResFlags, PResFrame};
use services::ServiceId;
use types::NodeId;
use types::basic::EthernetHeader;
use types::mapping::PDOVersion;
use types::poll_flags::{PRFlag, RSFlag};
use types::requested_service::RequestedServiceId;
use types::states::NmtState;

// Each kind of frame has fields of its own; what its writing shares is `writes`.
impl World {
    // Writes a frame without payload, under a head's table of services.
    fn writes(
        &mut self,
        node: &Node,
        eth_header: EthernetHeader,
        frame: PowerlinkFrame,
        room: usize,
    ) -> Result<Frame, Cause> {
        let mut target = Target::new(room);
        let got = serialize_frame(&node.services, eth_header, frame, b"", target.lend());
        self.has_written(target, got)
    }

    // An ASnd of a service of the house's own to a head.
    pub fn host_asnd(&mut self, node: &Node, room: usize) -> Result<Frame, Cause> {
        let id = node.head.id;
        let made = ASndFrame::new(
            station(MANAGING_NODE_ID),
            station(id),
            NodeId(id),
            NodeId(MANAGING_NODE_ID),
            ServiceId(SERVICE),
        );
        self.writes(
            node,
            made.eth_header,
            PowerlinkFrame::ASnd(made.frame),
            room,
        )
    }

    // A PReq to a head.
    pub fn host_preq(&mut self, node: &Node, ea: bool) -> Result<Frame, Cause> {
        let id = node.head.id;
        let flags = PReqFlags {
            ms: false,
            ea,
            rd: true,
        };
        let made = PReqFrame::new(
            station(MANAGING_NODE_ID),
            station(id),
            NodeId(id),
            flags,
            PDOVersion(0),
            b"",
        );
        self.writes(
            node,
            made.eth_header,
            PowerlinkFrame::PReq(made.frame),
            ROOM,
        )
    }

    // An IdentRequest to a head.
    pub fn host_ident_request(&mut self, node: &Node, flags: SoAFlags) -> Result<Frame, Cause> {
        let made = SoAFrame::new(
            station(MANAGING_NODE_ID),
            NmtState::NmtOperational,
            flags,
            RequestedServiceId::IdentRequest,
            NodeId(node.head.id),
            EPL_VERSION,
        );
        self.writes(node, made.eth_header, PowerlinkFrame::SoA(made.frame), ROOM)
    }

    // The PRes of a head.
    pub fn pres(&mut self, node: &Node) -> Result<Frame, Cause> {
        let id = node.head.id;
        let flags = PResFlags {
            ms: false,
            en: reporter::en(&node.state),
            rd: true,
            pr: PRFlag::High1,
            rs: RSFlag(1),
        };
        let made = PResFrame::new(
            station(id),
            NodeId(id),
            NmtState::NmtOperational,
            flags,
            PDOVersion(0),
            b"",
        );
        self.writes(
            node,
            made.eth_header,
            PowerlinkFrame::PRes(made.frame),
            ROOM,
        )
    }

    // What the box says of a head; nothing is told to one that is not registered.
    pub fn flags_for(&self, node: &Node) -> SoAFlags {
        collector::flags(&self.at_box, NodeId(node.head.id)).unwrap_or(SoAFlags {
            ea: false,
            er: false,
        })
    }
}
