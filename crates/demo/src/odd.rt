// Frames that neither the head nor the box has sent.
use crate::cause::Cause;
use crate::house;
use crate::outcome::{IGNORED, Outcome};
use crate::places::{
    DESTINATION_AT, ETHER_TYPE_AT, FLAGS_AT, MESSAGE_AT, SERVICE_AT, SIZE_AT, SOURCE_AT, STATE_AT,
};
use crate::target::Frame;
use octets::slices::put;

// A node that takes no part in the exchange.
pub const STRANGER: u8 = 0x21;

// What is odd of a frame.
#[derive(Clone, Copy, PartialEq, Eq)]
pub enum Odd {
    // Cut, or damaged.
    CutHeader,
    EtherType,
    CutSection,
    Message,
    State,
    Service,
    Request,
    // Of the stranger: as it is, an IdentResponse, an ASnd of the house's service 20h, a PReq.
    Stranger,
    IdentResponse,
    HouseService,
    StrangersPReq,
    // An SoC, an answer with no state, and one with EN 1.
    SoC,
    NoState,
    EnOne,
}

// Those that are given to both ends.
pub const FOR_BOTH: [Odd; 11] = [
    Odd::CutHeader,
    Odd::EtherType,
    Odd::CutSection,
    Odd::Message,
    Odd::State,
    Odd::Service,
    Odd::Request,
    Odd::Stranger,
    Odd::IdentResponse,
    Odd::HouseService,
    Odd::StrangersPReq,
];

impl Odd {
    // The places that it changes, and the octets there.
    fn changes(self) -> &'static [(usize, u8)] {
        match self {
            Odd::CutHeader | Odd::CutSection => &[],
            Odd::EtherType => &[(ETHER_TYPE_AT, 0x08)],
            Odd::Message => &[(MESSAGE_AT, 0x02)],
            Odd::State => &[(MESSAGE_AT, 0x05), (SERVICE_AT, 0x77)],
            Odd::Service => &[(MESSAGE_AT, 0x06), (SERVICE_AT, 0x0C)],
            Odd::Request => &[(MESSAGE_AT, 0x05), (SERVICE_AT, 0xFD), (STATE_AT, 0x09)],
            Odd::Stranger => &[(SOURCE_AT, STRANGER)],
            Odd::IdentResponse => &[
                (MESSAGE_AT, 0x06),
                (SOURCE_AT, STRANGER),
                (SERVICE_AT, 0x01),
            ],
            Odd::HouseService => &[
                (MESSAGE_AT, 0x06),
                (SOURCE_AT, STRANGER),
                (SERVICE_AT, house::SERVICE),
            ],
            Odd::StrangersPReq => &[
                (MESSAGE_AT, 0x03),
                (SOURCE_AT, STRANGER),
                (SIZE_AT, 0),
                (SIZE_AT + 1, 0),
            ],
            Odd::SoC => &[(MESSAGE_AT, 0x01)],
            Odd::NoState => &[(STATE_AT, 0x77)],
            Odd::EnOne => &[(FLAGS_AT, 0x30)],
        }
    }

    // Makes of a frame such a one, to the head of this ID.
    pub fn of(self, frame: Frame, id: u8) -> Frame {
        let mut octets = frame.octets;
        for (at, octet) in self.changes() {
            put(&mut octets, *at, &[*octet]);
        }
        octets[DESTINATION_AT] = id;
        let len = match self {
            Odd::CutHeader => 13,
            Odd::CutSection => 14,
            _ => frame.len,
        };
        Frame { octets, len }
    }

    // Why both ends refuse it, if they do: the house's table has no IdentResponse, and the twelve have no 20h.
    fn refused(self, number: usize) -> Option<Cause> {
        match self {
            Odd::CutHeader => Some(Cause::TooShort),
            Odd::EtherType => Some(Cause::NotPowerlink),
            Odd::CutSection => Some(Cause::InvalidFrame),
            Odd::Message => Some(Cause::UnknownMessage),
            Odd::State => Some(Cause::UnknownState),
            Odd::Service => Some(Cause::UnknownService),
            Odd::Request => Some(Cause::UnknownRequest),
            Odd::IdentResponse if house::has(number) => Some(Cause::UnknownService),
            Odd::HouseService if !house::has(number) => Some(Cause::UnknownService),
            _ => None,
        }
    }

    // What the box makes of it, under the table of a head.
    pub fn box_makes(self, number: usize) -> Outcome {
        let accepted = match self {
            Odd::Stranger => Cause::NotRegistered,
            _ => Cause::NotStatusResponse,
        };
        Err(self.refused(number).unwrap_or(accepted))
    }

    // What the head makes of it.
    pub fn head_makes(self, number: usize) -> Outcome {
        self.refused(number).map_or(IGNORED, Err)
    }
}
