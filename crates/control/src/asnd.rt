// Asynchronous Send (EPSG DS 301, 4.6.1.1.6).
ghost use Rattle.std.specs.Prelude.{◌≡◌, ◌++◌};
ghost use Rattle.types.specs.Addresses.{multicast_asnd};
ghost use Rattle.section.specs.Write.{Serializes};
ghost use Rattle.control.specs.ASnd.{new_asnd, asnd_bytes, asnd_section, served};

use section::{fits, write_behind};
use services::ServiceId;
use services::table::{Services, contains};
use types::basic::{ETH_LEN, EthernetHeader, MacAddress, NewFrame};
use types::hal::PowerlinkError;
use types::message_type::MessageType;
use types::{C_DLL_MULTICAST_ASND, NodeId};

// How many octets stand in front of the payload, in its section and in its frame.
pub const FIELDS_LEN: usize = 4;

pub const PAYLOAD_AT: usize = ETH_LEN + FIELDS_LEN;

// Where the service stands.
pub const SERVICE_AT: usize = 3;

// The fields in front of the payload, which stands beside them.
#[derive(Clone, Copy, Debug, PartialEq, Eq)]
pub struct ASndFrame {
    pub destination: NodeId,
    pub source: NodeId,
    pub service_id: ServiceId,
}

impl ASndFrame {
    // The address of an ASnd to all nodes; `new` takes any.
    pub const MULTICAST: [u8; 6] = C_DLL_MULTICAST_ASND;

    // The same, as an address.
    pub fn multicast() -> MacAddress
        ensures { result.0 ≡ multicast_asnd }
    {
        MacAddress(ASndFrame::MULTICAST)
    }

    // An ASnd with all addresses and IDs given. A StatusResponse of a node that has a reporter comes from `reporter::answer`
    // alone: any other EN makes its next batch known.
    pub fn new(
        source_mac: MacAddress,
        dest_mac: MacAddress,
        target_node_id: NodeId,
        source_node_id: NodeId,
        service_id: ServiceId,
    ) -> NewFrame<ASndFrame>
        ensures { result ≡ new_asnd source_mac dest_mac target_node_id source_node_id service_id }
    {
        NewFrame {
            eth_header: EthernetHeader::new(dest_mac, source_mac),
            frame: ASndFrame {
                destination: target_node_id,
                source: source_node_id,
                service_id,
            },
        }
    }

    // The octets of the fields.
    pub fn to_bytes(self) -> [u8; FIELDS_LEN]
        ensures { result ≡ asnd_bytes self }
    {
        [
            u8::from(MessageType::ASnd),
            self.destination.0,
            self.source.0,
            self.service_id.0,
        ]
    }

    // Writes the section with its payload, if it fits and the table holds its service.
    pub fn serialize(
        self,
        services: &Services,
        payload: &[u8],
        target: &mut [u8],
    ) -> Result<usize, PowerlinkError>
        ensures { Serializes (served services.now self.service_id (asnd_section self payload.now)) result target.old target.new }
    {
        self.serialize_behind(services, b"", payload, target)
    }

    // Writes the octets `front` and behind them such a section, if both fit.
    pub fn serialize_behind(
        self,
        services: &Services,
        front: &[u8],
        payload: &[u8],
        target: &mut [u8],
    ) -> Result<usize, PowerlinkError>
        ensures { Serializes (served services.now self.service_id (front.now ++ asnd_section self payload.now)) result target.old target.new }
    {
        let service = self.service_id.0;
        if contains(services, service) {
            return write_behind(front, &self.to_bytes(), payload, target);
        }
        if !fits(front.len(), FIELDS_LEN + payload.len(), target.len()) {
            return Err(PowerlinkError::BufferTooShort);
        }
        Err(PowerlinkError::InvalidServiceId(service))
    }
}
