// The two headers that every frame begins with.
ghost use Rattle.types.specs.Header.{eth_bytes};
ghost use Rattle.powerlink.specs.Given.{eth_given, pl_header_writing};
ghost use Rattle.powerlink.specs.Reading.{EthRead, PlRead};
ghost use Rattle.powerlink.specs.Writing.{WritesTo, WritesCoded};

use c_values::answers::{refusal, unnamed, written_or};
use codec::headers::{deserialize_eth_header, deserialize_pl_header};
use frame::write::{serialize_eth_header, serialize_pl_header};
use types::NodeId;
use types::basic::{EthernetHeader, MacAddress};
use types::hal::PowerlinkError;
use types::message_type::MessageType;

// Reads an Ethernet header, whatever its EtherType.
pub fn powerlink_deserialize_eth_header(
    buffer: &[u8],
    destination: &mut [u8; 6],
    source: &mut [u8; 6],
    ether_type: &mut u16,
) -> u8
    ensures { EthRead buffer.now result destination.old destination.new source.old source.new ether_type.old ether_type.new }
{
    match deserialize_eth_header(buffer) {
        Err(refused) => refused.error.number(),
        Ok(header) => {
            let d = header.destination_mac.0;
            let s = header.source_mac.0;
            *destination = d;
            *source = s;
            *ether_type = header.ether_type;
            0
        }
    }
}

// Reads what every section begins with: message type, destination, source.
pub fn powerlink_deserialize_pl_header(buffer: &[u8], values: &mut [u64; 3], octet: &mut u8) -> u8
    ensures { PlRead buffer.now result values.old values.new octet.old octet.new }
{
    match deserialize_pl_header(buffer) {
        Err(e) => refusal(e, octet),
        Ok(h) => {
            *values = [
                u8::from(h.message_type) as u64,
                h.destination.0 as u64,
                h.source.0 as u64,
            ];
            0
        }
    }
}

// Writes an Ethernet header.
pub fn powerlink_serialize_eth_header(
    destination: &[u8; 6],
    source: &[u8; 6],
    ether_type: u16,
    target: &mut [u8],
    written: &mut usize,
) -> u8
    ensures { WritesTo (eth_bytes (eth_given destination.now source.now ether_type)) result target.old target.new written.old written.new }
{
    let header = EthernetHeader {
        destination_mac: MacAddress(*destination),
        source_mac: MacAddress(*source),
        ether_type,
    };
    let answer = serialize_eth_header(header, target);
    written_or(answer, written)
}

// Writes what every section begins with.
pub fn powerlink_serialize_pl_header(
    message_type: u8,
    destination: u8,
    source: u8,
    target: &mut [u8],
    written: &mut usize,
    octet: &mut u8,
) -> u8
    ensures { WritesCoded (pl_header_writing message_type destination source) result target.old target.new written.old written.new octet.old octet.new }
{
    match MessageType::try_from(message_type) {
        Err(e) => unnamed(e, 3, target.len(), octet),
        Ok(message) => {
            let answer = serialize_pl_header(message, NodeId(destination), NodeId(source), target);
            written_or(answer, written)
        }
    }
}
