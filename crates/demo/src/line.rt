// The line: what each sender has sent last, and which of it an end is given. It drops, delays and repeats, and never
// turns an order round.
ghost use Rattle.std.specs.Prelude.{◌≡◌};
ghost use Rattle.demo.specs.World.{empty_line};

use crate::target::Frame;
use crate::world::HEADS;

// The managing node as a sender, behind the heads.
pub const MANAGING_NODE: usize = HEADS;

const SENDERS: usize = HEADS + 1;

// The last frames that are kept of a sender; older ones are lost.
const KEPT: usize = 8;

// The frames of each sender, by their running numbers.
#[derive(Clone, Copy)]
pub struct Line {
    frames: [[Frame; KEPT]; SENDERS],
}

impl Line {
    pub fn new() -> Self
        ensures { result ≡ empty_line }
    {
        Line {
            frames: [[Frame::EMPTY; KEPT]; SENDERS],
        }
    }

    // A sender sends its frame of this number.
    pub fn takes(&mut self, sender: usize, number: u64, frame: Frame) {
        self.frames[sender % SENDERS][number as usize % KEPT] = frame;
    }

    // An end is given it.
    pub fn gives(&self, sender: usize, number: u64) -> Frame {
        self.frames[sender % SENDERS][number as usize % KEPT]
    }
}

// Which of the `sent` frames an end is given that has come as far as `next`: a repeat, one behind others that are lost, or the
// first that it can get, if there is one.
pub fn pick(next: u64, sent: u64, chance: u64) -> Option<u64> {
    let oldest = sent.saturating_sub(KEPT as u64);
    let first = next.max(oldest);
    let chosen = match chance % 16 {
        0..=3 => next.saturating_sub(1),
        4 | 5 => first.saturating_add(1),
        6 => first.saturating_add(2),
        _ => first,
    };
    if oldest <= chosen && chosen < sent {
        Some(chosen)
    } else {
        (first < sent).then_some(first)
    }
}
