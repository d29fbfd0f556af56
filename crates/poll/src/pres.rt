// Poll Response, from a controlled node to all (EPSG DS 301, 4.6.1.1.4).
ghost use Rattle.std.specs.Prelude.{◌≡◌, length, take};
ghost use Rattle.section.specs.Write.{Writes};
ghost use Rattle.poll.specs.PRes.{new_pres, pres_bytes, pres_section};

use crate::{FIELDS_LEN, MS, RD};
use octets::little_endian::put_le;
use octets::slices::put;
use section::{flag, write_section};
use types::basic::{EthernetHeader, MacAddress, NewFrame};
use types::hal::PowerlinkError;
use types::mapping::PDOVersion;
use types::message_type::MessageType;
use types::poll_flags::{PRFlag, RSFlag, poll_octet};
use types::states::NmtState;
use types::{C_ADR_BROADCAST_NODE_ID, C_DLL_MULTICAST_PRES, NodeId};

// The flags (EPSG DS 301, Table 20).
#[derive(Clone, Copy, Debug, PartialEq, Eq)]
pub struct PResFlags {
    // Multiplexed slot.
    pub ms: bool,
    // Exception new.
    pub en: bool,
    // Ready: the payload is valid.
    pub rd: bool,
    pub pr: PRFlag,
    pub rs: RSFlag,
}

// Where the state stands.
pub const STATE_AT: usize = 3;

// The bit of EN in octet 4, beside those of MS and RD.
pub const EN: u8 = 0x10;

// The fields in front of the payload, which stands beside them.
#[derive(Clone, Copy, Debug, PartialEq, Eq)]
pub struct PResFrame {
    pub destination: NodeId,
    pub source: NodeId,
    pub nmt_state: NmtState,
    pub flags: PResFlags,
    pub pdo_version: PDOVersion,
    pub payload_size: u16,
}

impl PResFrame {
    // The address that a PRes is sent to.
    pub const MULTICAST: [u8; 6] = C_DLL_MULTICAST_PRES;

    // A PRes from a controlled node to all nodes. Its size is the payload's length modulo 65,536.
    pub fn new(
        source_mac: MacAddress,
        source_node_id: NodeId,
        nmt_state: NmtState,
        flags: PResFlags,
        pdo_version: PDOVersion,
        payload: &[u8],
    ) -> NewFrame<PResFrame>
        ensures { result ≡ new_pres source_mac source_node_id nmt_state flags pdo_version (length payload.now) }
    {
        NewFrame {
            eth_header: EthernetHeader::new(MacAddress(PResFrame::MULTICAST), source_mac),
            frame: PResFrame {
                destination: NodeId(C_ADR_BROADCAST_NODE_ID),
                source: source_node_id,
                nmt_state,
                flags,
                pdo_version,
                payload_size: (payload.len() % 0x1_0000) as u16,
            },
        }
    }

    // The octets of the fields. The size is written as the frame holds it.
    pub fn to_bytes(self) -> [u8; FIELDS_LEN]
        ensures { result ≡ pres_bytes self }
    {
        let mut octets = [0u8; FIELDS_LEN];
        put(&mut octets, 0, &first_octets(self));
        put_le(&mut octets, 8, self.payload_size);
        octets
    }

    // Writes the section with its payload, if it fits.
    #[tactic(auto, unfolding(crate::specs::PRes::pres_section))]
    pub fn serialize(self, payload: &[u8], target: &mut [u8]) -> Result<usize, PowerlinkError>
        ensures { Writes (pres_section self payload.now) result target.old target.new }
    {
        write_section(&self.to_bytes(), payload, target)
    }
}

// The octets in front of the size. An array of 8 that is returned is one number to the compiler, which stores it at once.
fn first_octets(frame: PResFrame) -> [u8; 8]
    ensures { result ≡ take 8 (pres_bytes frame) }
{
    let state = frame.nmt_state;
    let flags = frame.flags;
    let pr = flags.pr;
    let rs = flags.rs;
    [
        u8::from(MessageType::PRes),
        frame.destination.0,
        frame.source.0,
        u8::from(state),
        flag(flags.ms, MS) + flag(flags.en, EN) + flag(flags.rd, RD),
        poll_octet(pr, rs),
        frame.pdo_version.0,
        0,
    ]
}
