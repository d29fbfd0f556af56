// Targets of writers, and frames.
ghost use Rattle.std.specs.Prelude.{◌≡◌};
ghost use Rattle.demo.specs.Counts.{clean};

use crate::places::{DESTINATION_AT, MESSAGE_AT, TARGET_AT};
use octets::slices::{front, tail};
use types::message_type::MessageType;

// More than the longest frame.
pub const ROOM: usize = 240;

pub type Space = [u8; ROOM];

// Every octet of a target before a call.
const FILL: u8 = 0xFC;

// What is lent to a writer: the first octets of a space.
// The array with a number: `is_clean` looks at what lies behind the octets that are lent.
#[derive(Clone, Copy)]
pub struct Target {
    space: Space,
    room: usize,
}

impl Target {
    // A target of `room` octets, or of the whole space where it has fewer.
    pub fn new(room: usize) -> Self {
        Target {
            space: [FILL; ROOM],
            room: room.min(ROOM),
        }
    }

    pub fn lend(&mut self) -> &mut [u8] {
        let room = self.room.min(ROOM);
        &mut self.space[..room]
    }

    // The first `len` octets as a frame.
    pub fn frame(self, len: usize) -> Frame
        ensures { result ≡ record { octets = self.space; len = len } }
    {
        let octets = self.space;
        Frame { octets, len }
    }

    // Whether nothing is written behind the first `len` octets.
    pub fn is_clean(&self, len: usize) -> bool
        ensures { result ≡ clean len self.now }
    {
        tail(&self.space, len).iter().all(|octet| *octet == FILL)
    }
}

// A frame, in the first octets of a space. An array with a length, since the line keeps copies of frames; a Vec would have to be
// allocated for each, and could fail.
#[derive(Clone, Copy)]
pub struct Frame {
    pub octets: Space,
    pub len: usize,
}

impl Frame {
    pub const EMPTY: Frame = Frame {
        octets: [FILL; ROOM],
        len: 0,
    };

    pub fn bytes(&self) -> &[u8] {
        front(&self.octets, self.len)
    }

    // The node that a frame of the managing node is for: a PReq's destination, an SoA's target.
    pub fn addressed(&self) -> u8 {
        let octets = &self.octets;
        if octets[MESSAGE_AT] == u8::from(MessageType::PReq) {
            octets[DESTINATION_AT]
        } else {
            octets[TARGET_AT]
        }
    }
}
