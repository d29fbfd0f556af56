// The two headers that every frame begins with (powerlink-rs: CodecHelpers).
ghost use Rattle.std.specs.Prelude.{◌≡◌};
ghost use Rattle.types.specs.Header.{eth_header_of, mac_of};
ghost use Rattle.codec.specs.Headers.{ReadsEthHeader, ReadsPlHeader};

use octets::big_endian::get_u16_be;
use octets::slices::{byte_at, tail};
use types::NodeId;
use types::basic::{ETH_LEN, EthernetHeader, MacAddress};
use types::hal::PowerlinkError;
use types::message_type::MessageType;

// The message type is the low seven bits of octet 0, which is the octet modulo this.
pub(crate) const MESSAGE_TYPES: u8 = 0x80;

// Why no Ethernet header is read, and the header that the octets give all the same, those past the end counting as 0.
#[derive(Clone, Copy, Debug, PartialEq, Eq)]
pub struct RefusedEthHeader {
    pub eth_header: EthernetHeader,
    pub error: PowerlinkError,
}

// The octets that every section begins with.
#[derive(Clone, Copy, Debug, PartialEq, Eq)]
pub struct PlHeader {
    pub message_type: MessageType,
    pub destination: NodeId,
    pub source: NodeId,
}

// The address that the first six octets are.
fn mac_at(s: &[u8]) -> MacAddress
    ensures { result ≡ mac_of s.now }
{
    MacAddress([
        byte_at(s, 0),
        byte_at(s, 1),
        byte_at(s, 2),
        byte_at(s, 3),
        byte_at(s, 4),
        byte_at(s, 5),
    ])
}

// The header that the first octets are, those past the end counting as 0.
#[tactic(auto, unfolding(types::specs::Header::eth_header_of))]
pub fn eth_header_at(buffer: &[u8]) -> EthernetHeader
    ensures { result ≡ eth_header_of buffer.now }
{
    EthernetHeader {
        destination_mac: mac_at(buffer),
        source_mac: mac_at(tail(buffer, 6)),
        ether_type: get_u16_be(buffer, 12),
    }
}

// Reads the Ethernet header in front of a frame, whatever its EtherType.
pub fn deserialize_eth_header(buffer: &[u8]) -> Result<EthernetHeader, RefusedEthHeader>
    ensures { ReadsEthHeader buffer.now result }
{
    if buffer.len() < ETH_LEN {
        return Err(RefusedEthHeader {
            eth_header: eth_header_at(buffer),
            error: PowerlinkError::BufferTooShort,
        });
    }
    Ok(eth_header_at(buffer))
}

// Reads what every section begins with.
#[tactic(auto, unfolding(crate::specs::Headers::deserialize_pl_header))]
pub fn deserialize_pl_header(s: &[u8]) -> Result<PlHeader, PowerlinkError>
    ensures { ReadsPlHeader s.now result }
{
    if s.len() < 3 {
        return Err(PowerlinkError::BufferTooShort);
    }
    let message_type = MessageType::try_from(s[0] % MESSAGE_TYPES)?;
    Ok(PlHeader {
        message_type,
        destination: NodeId(s[1]),
        source: NodeId(s[2]),
    })
}
