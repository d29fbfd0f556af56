// Start of Asynchronous (EPSG DS 301, 4.6.1.1.5).
ghost use Rattle.std.specs.Prelude.{◌≡◌, take};
ghost use Rattle.section.specs.Write.{Writes};
ghost use Rattle.control.specs.SoA.{new_soa, soa_bytes, soa_section};

use octets::slices::put;
use section::{flag, write_section};
use types::basic::{EthernetHeader, MacAddress, NewFrame};
use types::hal::PowerlinkError;
use types::message_type::MessageType;
use types::requested_service::RequestedServiceId;
use types::states::NmtState;
use types::{
    C_ADR_BROADCAST_NODE_ID, C_ADR_MN_DEF_NODE_ID, C_DLL_MULTICAST_SOA, EPLVersion, NodeId,
};

// How many octets the fields have.
pub const FIELDS_LEN: usize = 9;

// Where the state and the requested service stand.
pub const STATE_AT: usize = 3;

pub const SERVICE_AT: usize = 6;

// The flags (EPSG DS 301, Table 22).
#[derive(Clone, Copy, Debug, PartialEq, Eq)]
pub struct SoAFlags {
    // Exception acknowledge.
    pub ea: bool,
    // Exception reset.
    pub er: bool,
}

// Their bits in octet 4.
pub const EA: u8 = 4;

pub const ER: u8 = 2;

#[derive(Clone, Copy, Debug, PartialEq, Eq)]
pub struct SoAFrame {
    pub destination: NodeId,
    pub source: NodeId,
    pub nmt_state: NmtState,
    pub flags: SoAFlags,
    pub req_service_id: RequestedServiceId,
    pub target_node_id: NodeId,
    pub epl_version: EPLVersion,
}

impl SoAFrame {
    // The address that an SoA is sent to.
    pub const MULTICAST: [u8; 6] = C_DLL_MULTICAST_SOA;

    // An SoA from the managing node to all nodes. Whatever it requests, its flags are `collector::flags` of the target at
    // the moment of sending: any other EA may close a batch that is not booked.
    pub fn new(
        source_mac: MacAddress,
        nmt_state: NmtState,
        flags: SoAFlags,
        requested_service: RequestedServiceId,
        target_node_id: NodeId,
        epl_version: EPLVersion,
    ) -> NewFrame<SoAFrame>
        ensures { result ≡ new_soa source_mac nmt_state flags requested_service target_node_id epl_version }
    {
        NewFrame {
            eth_header: EthernetHeader::new(MacAddress(SoAFrame::MULTICAST), source_mac),
            frame: SoAFrame {
                destination: NodeId(C_ADR_BROADCAST_NODE_ID),
                source: NodeId(C_ADR_MN_DEF_NODE_ID),
                nmt_state,
                flags,
                req_service_id: requested_service,
                target_node_id,
                epl_version,
            },
        }
    }

    // The octets of the fields.
    pub fn to_bytes(self) -> [u8; FIELDS_LEN]
        ensures { result ≡ soa_bytes self }
    {
        let mut octets = [0u8; FIELDS_LEN];
        put(&mut octets, 0, &first_octets(self));
        octets[8] = self.epl_version.0;
        octets
    }

    // Writes the section, if it fits.
    #[tactic(auto, unfolding(crate::specs::SoA::soa_section))]
    pub fn serialize(self, target: &mut [u8]) -> Result<usize, PowerlinkError>
        ensures { Writes (soa_section self) result target.old target.new }
    {
        write_section(&self.to_bytes(), b"", target)
    }
}

// The octets in front of the version. An array of 8 that is returned is one number to the compiler, which stores it at
// once.
fn first_octets(frame: SoAFrame) -> [u8; 8]
    ensures { result ≡ take 8 (soa_bytes frame) }
{
    let state = frame.nmt_state;
    let service = frame.req_service_id;
    [
        u8::from(MessageType::SoA),
        frame.destination.0,
        frame.source.0,
        u8::from(state),
        flag(frame.flags.ea, EA) + flag(frame.flags.er, ER),
        0,
        u8::from(service),
        frame.target_node_id.0,
    ]
}
