// Start of Cycle (EPSG DS 301, 4.6.1.1.2).
ghost use Rattle.std.specs.Prelude.{◌≡◌, ◌++◌, take, drop};
ghost use Rattle.octets.specs.Numbers.{le_bytes};
ghost use Rattle.section.specs.Write.{Writes};
ghost use Rattle.control.specs.SoC.{new_soc, soc_bytes, soc_section};

use octets::little_endian::put_le;
use octets::slices::put;
use section::{flag, write_section};
use types::basic::{EthernetHeader, MacAddress, NewFrame};
use types::common::{NetTime, RelativeTime};
use types::hal::PowerlinkError;
use types::message_type::MessageType;
use types::{C_ADR_BROADCAST_NODE_ID, C_ADR_MN_DEF_NODE_ID, C_DLL_MULTICAST_SOC, NodeId};

// How many octets the fields have.
pub const FIELDS_LEN: usize = 22;

// The flags (EPSG DS 301, Table 16).
#[derive(Clone, Copy, Debug, PartialEq, Eq)]
pub struct SocFlags {
    // Multiplexed cycle completed.
    pub mc: bool,
    // Prescaled slot.
    pub ps: bool,
}

// Their bits in octet 4.
pub const MC: u8 = 0x80;

pub const PS: u8 = 0x40;

#[derive(Clone, Copy, Debug, PartialEq, Eq)]
pub struct SocFrame {
    pub destination: NodeId,
    pub source: NodeId,
    pub flags: SocFlags,
    pub net_time: NetTime,
    pub relative_time: RelativeTime,
}

impl SocFrame {
    // The address that a SoC is sent to.
    pub const MULTICAST: [u8; 6] = C_DLL_MULTICAST_SOC;

    // A SoC from the managing node to all nodes.
    pub fn new(
        source_mac: MacAddress,
        flags: SocFlags,
        net_time: NetTime,
        relative_time: RelativeTime,
    ) -> NewFrame<SocFrame>
        ensures { result ≡ new_soc source_mac flags net_time relative_time }
    {
        NewFrame {
            eth_header: EthernetHeader::new(MacAddress(SocFrame::MULTICAST), source_mac),
            frame: SocFrame {
                destination: NodeId(C_ADR_BROADCAST_NODE_ID),
                source: NodeId(C_ADR_MN_DEF_NODE_ID),
                flags,
                net_time,
                relative_time,
            },
        }
    }

    // The octets of the fields.
    pub fn to_bytes(self) -> [u8; FIELDS_LEN]
        ensures { result ≡ soc_bytes self }
    {
        let net_time = self.net_time;
        let mut octets = [0u8; FIELDS_LEN];
        put(&mut octets, 0, &node_octets(self));
        put(&mut octets, 4, &flag_octets(self));
        put(&mut octets, 6, &time_octets(net_time));
        put_le(&mut octets, 14, self.relative_time.0);
        octets
    }

    // Writes the section, if it fits.
    pub fn serialize(self, target: &mut [u8]) -> Result<usize, PowerlinkError>
        ensures { Writes (soc_section self) result target.old target.new }
    {
        write_section(&self.to_bytes(), b"", target)
    }
}

// The octets of the fields in front of the relative time, in three parts: an array of 2, 4 or 8 that is returned is one
// number to the compiler, which stores it at once.
fn node_octets(frame: SocFrame) -> [u8; 4]
    ensures { result ≡ take 4 (soc_bytes frame) }
{
    [
        u8::from(MessageType::SoC),
        frame.destination.0,
        frame.source.0,
        0,
    ]
}

fn flag_octets(frame: SocFrame) -> [u8; 2]
    ensures { result ≡ take 2 (drop 4 (soc_bytes frame)) }
{
    [flag(frame.flags.mc, MC) + flag(frame.flags.ps, PS), 0]
}

fn time_octets(time: NetTime) -> [u8; 8]
    ensures { result ≡ le_bytes 4 time.seconds ++ le_bytes 4 time.nanoseconds }
{
    let mut octets = [0u8; 8];
    put_le(&mut octets, 0, time.seconds);
    put_le(&mut octets, 4, time.nanoseconds);
    octets
}
