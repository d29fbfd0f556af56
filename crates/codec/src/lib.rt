// Reading any frame (powerlink-rs: frame/codec.rs): the tests are
// `kind_of` and then the `judge` of the kind, and `read_frame` and any other reading go by their verdicts.
#![tactic(auto)]

ghost use Rattle.std.specs.Prelude.{◌≡◌};
ghost use Rattle.octets.specs.Part.{Part};
ghost use Rattle.codec.specs.Frame.{kind_in, kind_of, by_kind, place_in_frame, payload_of, Reads, ReadsFrame};

pub mod asnd;
pub mod headers;
pub mod preq;
pub mod pres;
pub mod soa;
pub mod soc;

use frame::PowerlinkFrame;
use headers::{MESSAGE_TYPES, eth_header_at};
use octets::big_endian::get_u16_be;
use octets::slices::{byte_at, front, tail};
use services::table::Services;
use types::C_DLL_ETHERTYPE_EPL;
use types::basic::{ETH_LEN, EthernetHeader};
use types::hal::PowerlinkError;
use types::message_type::MessageType;

// Where a payload lies in the bytes of its frame: two numbers, and no slice, since C is told them.
#[derive(Clone, Copy, Debug, PartialEq, Eq)]
pub struct PayloadPlace {
    pub start: usize,
    pub len: usize,
}

// What reading a frame gives.
#[derive(Clone, Copy, Debug, PartialEq, Eq)]
pub struct DeserializedFrame {
    pub eth_header: EthernetHeader,
    pub frame: PowerlinkFrame,
    pub payload_place: PayloadPlace,
}

// Why a frame is refused, and what its octets give all the same: the header, those past the end counting as 0, and the place of no payload.
#[derive(Clone, Copy, Debug, PartialEq, Eq)]
pub struct RefusedFrame {
    pub eth_header: EthernetHeader,
    pub error: PowerlinkError,
    pub payload_place: PayloadPlace,
}

impl DeserializedFrame {
    // The Ethernet header in front of what was read.
    pub fn ethernet_header(self) -> EthernetHeader
        ensures { result ≡ self.eth_header }
    {
        let header = self.eth_header;
        header
    }
}

// Reads a frame, from its Ethernet header on; an ASnd is read where the table holds its service.
#[tactic(auto, unfolding(crate::specs::Frame::deserialize_frame))]
pub fn deserialize_frame(
    services: &Services,
    buffer: &[u8],
) -> Result<DeserializedFrame, RefusedFrame>
    ensures { Reads services.now buffer.now result }
{
    let eth_header = eth_header_at(buffer);
    match read_frame(services, buffer) {
        Ok(frame) => Ok(DeserializedFrame {
            eth_header,
            frame,
            payload_place: payload_place(frame, tail(buffer, ETH_LEN)),
        }),
        Err(error) => Err(RefusedFrame {
            eth_header,
            error,
            payload_place: PayloadPlace { start: 0, len: 0 },
        }),
    }
}

// The payload of a frame that was read from `buffer`, as that part of it: empty for SoC, SoA and a refusal. A place that does not
// lie in these bytes is cut at their end.
pub fn payload(place: PayloadPlace, buffer: &[u8]) -> &[u8]
    ensures { Part buffer.entry place.start (payload_of place buffer.now) result }
{
    let start = place.start;
    let len = place.len;
    front(tail(buffer, start), len)
}

// The frame, or why it is refused: for a caller that wants neither header nor payload. The table and the octets come apart, here and
// in the exchange: who lends the one does not own the other.
#[tactic(auto, unfolding(crate::specs::Frame::read_frame))]
pub fn read_frame(services: &Services, buffer: &[u8]) -> Result<PowerlinkFrame, PowerlinkError>
    ensures { ReadsFrame services.now buffer.now result }
{
    let kind = kind_of(buffer)?;
    read_kind(services, kind, tail(buffer, ETH_LEN))
}

// The tests of a frame before those of its kind. What a caller does for each kind then is its own.
#[tactic(auto, unfolding(crate::specs::Frame::kind_of))]
pub fn kind_of(buffer: &[u8]) -> Result<MessageType, PowerlinkError>
    ensures { result ≡ kind_of buffer.now }
{
    if buffer.len() < ETH_LEN {
        return Err(PowerlinkError::BufferTooShort);
    }
    if get_u16_be(buffer, 12) != C_DLL_ETHERTYPE_EPL {
        return Err(PowerlinkError::InvalidEthernetFrame);
    }
    if buffer.len() <= ETH_LEN {
        return Err(PowerlinkError::InvalidPlFrame);
    }
    kind_in(tail(buffer, ETH_LEN))
}

// The kind of the section `s`. Two tests of a few codes each: one of all five is compiled to a table of jumps.
fn kind_in(s: &[u8]) -> Result<MessageType, PowerlinkError>
    ensures { result ≡ kind_in s.now }
{
    let code = byte_at(s, 0) % MESSAGE_TYPES;
    if code < 4 {
        match code {
            1 => Ok(MessageType::SoC),
            3 => Ok(MessageType::PReq),
            _ => Err(PowerlinkError::InvalidMessageType(code)),
        }
    } else {
        match code {
            4 => Ok(MessageType::PRes),
            5 => Ok(MessageType::SoA),
            6 => Ok(MessageType::ASnd),
            _ => Err(PowerlinkError::InvalidMessageType(code)),
        }
    }
}

// The section `s` of a frame of a kind. Each kind has its `judge`, `fields` and `deserialize`, since what the tests hand on to the
// fields is of another type in each; and a frame is matched by its kind where one is read, which no table of functions says plainer.
fn read_kind(
    services: &Services,
    kind: MessageType,
    s: &[u8],
) -> Result<PowerlinkFrame, PowerlinkError>
    ensures { result ≡ by_kind services.now kind s.now }
{
    match kind {
        MessageType::SoC => soc::deserialize(s),
        MessageType::PReq => preq::deserialize(s),
        MessageType::PRes => pres::deserialize(s),
        MessageType::SoA => soa::deserialize(s),
        MessageType::ASnd => asnd::deserialize(services, s),
    }
}

// The payload's place in a frame with the section `s`, counted from the Ethernet header on.
pub fn payload_place(frame: PowerlinkFrame, s: &[u8]) -> PayloadPlace
    ensures { result ≡ place_in_frame frame s.now }
{
    match frame {
        PowerlinkFrame::Soc(_) => PayloadPlace { start: 0, len: 0 },
        PowerlinkFrame::SoA(_) => PayloadPlace { start: 0, len: 0 },
        PowerlinkFrame::PReq(f) => PayloadPlace {
            start: poll::PAYLOAD_AT,
            len: f.payload_size as usize,
        },
        PowerlinkFrame::PRes(f) => PayloadPlace {
            start: poll::PAYLOAD_AT,
            len: f.payload_size as usize,
        },
        PowerlinkFrame::ASnd(_) => PayloadPlace {
            start: control::asnd::PAYLOAD_AT,
            len: asnd::payload_len(s),
        },
    }
}
