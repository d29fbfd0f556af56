// Poll Request, from the managing node to one controlled node (EPSG DS 301, 4.6.1.1.3).
ghost use Rattle.std.specs.Prelude.{◌≡◌, length, take};
ghost use Rattle.section.specs.Write.{Writes};
ghost use Rattle.poll.specs.PReq.{new_preq, preq_bytes, preq_section};

use crate::{FIELDS_LEN, MS, RD};
use octets::little_endian::put_le;
use octets::slices::put;
use section::{flag, write_section};
use types::basic::{EthernetHeader, MacAddress, NewFrame};
use types::hal::PowerlinkError;
use types::mapping::PDOVersion;
use types::message_type::MessageType;
use types::{C_ADR_MN_DEF_NODE_ID, NodeId};

// The flags (EPSG DS 301, Table 18).
#[derive(Clone, Copy, Debug, PartialEq, Eq)]
pub struct PReqFlags {
    // Multiplexed slot.
    pub ms: bool,
    // Exception acknowledge. From the managing node it is `collector::flags` of the moment of sending: any other may close
    // a batch that is not booked.
    pub ea: bool,
    // Ready: the payload is valid.
    pub rd: bool,
}

// The bit of EA in octet 4, beside those of MS and RD.
pub const EA: u8 = 4;

// The fields in front of the payload, which stands beside them.
#[derive(Clone, Copy, Debug, PartialEq, Eq)]
pub struct PReqFrame {
    pub destination: NodeId,
    pub source: NodeId,
    pub flags: PReqFlags,
    pub pdo_version: PDOVersion,
    pub payload_size: u16,
}

impl PReqFrame {
    // A PReq from the managing node to one controlled node. Its size is the payload's length modulo 65,536.
    pub fn new(
        source_mac: MacAddress,
        dest_mac: MacAddress,
        target_node_id: NodeId,
        flags: PReqFlags,
        pdo_version: PDOVersion,
        payload: &[u8],
    ) -> NewFrame<PReqFrame>
        ensures { result ≡ new_preq source_mac dest_mac target_node_id flags pdo_version (length payload.now) }
    {
        NewFrame {
            eth_header: EthernetHeader::new(dest_mac, source_mac),
            frame: PReqFrame {
                destination: target_node_id,
                source: NodeId(C_ADR_MN_DEF_NODE_ID),
                flags,
                pdo_version,
                payload_size: (payload.len() % 0x1_0000) as u16,
            },
        }
    }

    // The octets of the fields. The size is written as the frame holds it.
    pub fn to_bytes(self) -> [u8; FIELDS_LEN]
        ensures { result ≡ preq_bytes self }
    {
        let mut octets = [0u8; FIELDS_LEN];
        put(&mut octets, 0, &first_octets(self));
        put_le(&mut octets, 8, self.payload_size);
        octets
    }

    // Writes the section with its payload, if it fits.
    #[tactic(auto, unfolding(crate::specs::PReq::preq_section))]
    pub fn serialize(self, payload: &[u8], target: &mut [u8]) -> Result<usize, PowerlinkError>
        ensures { Writes (preq_section self payload.now) result target.old target.new }
    {
        write_section(&self.to_bytes(), payload, target)
    }
}

// The octets in front of the size. An array of 8 that is returned is one number to the compiler, which stores it at once.
fn first_octets(frame: PReqFrame) -> [u8; 8]
    ensures { result ≡ take 8 (preq_bytes frame) }
{
    let flags = frame.flags;
    [
        u8::from(MessageType::PReq),
        frame.destination.0,
        frame.source.0,
        0,
        flag(flags.ms, MS) + flag(flags.ea, EA) + flag(flags.rd, RD),
        0,
        frame.pdo_version.0,
        0,
    ]
}
