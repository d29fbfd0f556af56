// Plays lines to check, a call to each of them.
ghost use Rattle.std.specs.Prelude.{◌≡◌};
ghost use Rattle.demo.specs.World.{first_node, first_world, no_frame};

use crate::cause::Cause;
use crate::entries::{Kind, entry};
use crate::fields::{FILLED, ZEROS};
use crate::odd::Odd;
use crate::outcome::{DONE, Outcome, outcome};
use crate::status::put_in;
use crate::target::{Frame, ROOM};
use crate::world::{Node, World};
use octets::slices::front;

// A call, and where it is shown, what it has to come to and what it is.
#[derive(Clone, Copy)]
pub enum Step {
    Quiet(Call),
    Shown(Call, Outcome, &'static str),
}

#[derive(Clone, Copy)]
pub enum Call {
    // A fresh box and a fresh head of this ID.
    Fresh(u8),
    // Loads a table of services, under which both ends are.
    Load(&'static [u8]),
    // Raises so many entries, or one of a kind.
    Raise(u64),
    RaiseOne(Kind),
    // The head answers into so many octets; the same with fields of zeros.
    Answer(usize),
    AnswerZeros(usize),
    // Makes the frame in hand odd; puts an entry of a kind into it, behind so many others.
    Spoil(Odd),
    PutIn(u64, Kind),
    // The head reads the frame in hand; the box reads so many octets of it.
    HeadReads,
    BoxReads(usize),
    // So many exchanges of four entries each.
    Exchanges(u64),
    // The box registers this ID, or hands out an entry of it.
    Register(u8),
    Take(u8),
    // The box's request to this ID into so many octets.
    Request(u8, usize),
    // The host's PReq to the head, with the EA that `flags` says; one with EA 0; its ASnd of service 20h into so many octets.
    PReq,
    PReqWithoutEa,
    Asnd(usize),
}

// What the lines work on. The frame in hand is what was written last.
#[derive(Clone, Copy)]
pub struct Script {
    pub world: World,
    node: Node,
    hand: Frame,
}

impl Script {
    pub fn new() -> Self
        ensures { result ≡ record { world = first_world; node = first_node 0 7; hand = no_frame } }
    {
        Script {
            world: World::new(),
            node: Node::new(0, 7),
            hand: Frame::EMPTY,
        }
    }

    fn renew(&mut self, id: u8) -> Outcome {
        collector::new(&mut self.world.at_box);
        self.node.renew(id)
    }

    // Raises entries, and answers what the last call came to.
    fn raise(&mut self, n: u64) -> Outcome {
        let mut last = DONE;
        for i in 0..n {
            last = self.node.raise(entry(0, i));
        }
        last
    }

    // What was written is in hand.
    fn takes(&mut self, written: Result<Frame, Cause>) -> Outcome {
        if let Ok(frame) = written {
            self.hand = frame;
        }
        outcome(written)
    }

    fn answer(&mut self, room: usize, some: u8) -> Outcome {
        let written = self.world.answer(&mut self.node, room, some);
        self.takes(written)
    }

    fn request(&mut self, id: u8, room: usize) -> Outcome {
        let written = self.world.request(id, room);
        self.takes(written)
    }

    fn told_preq(&mut self) -> Outcome {
        let flags = self.world.flags_for(&self.node);
        self.preq(flags.ea)
    }

    fn preq(&mut self, ea: bool) -> Outcome {
        let written = self.world.host_preq(&self.node, ea);
        self.takes(written)
    }

    fn asnd(&mut self, room: usize) -> Outcome {
        let written = self.world.host_asnd(&self.node, room);
        self.takes(written)
    }

    fn head_reads(&mut self) -> Outcome {
        self.node.read(self.hand.bytes())
    }

    fn box_reads(&mut self, most: usize) -> Outcome {
        self.world
            .box_read(&self.node, front(self.hand.bytes(), most))
    }

    // Four entries are raised, booked and closed.
    fn exchange(&mut self) -> Outcome {
        self.raise(4)?;
        self.answer(ROOM, FILLED)?;
        self.box_reads(ROOM)?;
        self.request(self.node.head.id, ROOM)?;
        self.head_reads()
    }

    fn exchanges(&mut self, n: u64) -> Outcome {
        for _ in 0..n {
            self.exchange()?;
        }
        DONE
    }

    fn spoil(&mut self, odd: Odd) -> Outcome {
        self.hand = odd.of(self.hand, self.node.head.id);
        DONE
    }

    fn put_in(&mut self, place: u64, kind: Kind) -> Outcome {
        self.hand = put_in(self.hand, place, kind.entry(0, place));
        DONE
    }

    fn plays(&mut self, call: Call) -> Outcome {
        match call {
            Call::Fresh(id) => self.renew(id),
            Call::Load(file) => self.node.load(file),
            Call::Raise(n) => self.raise(n),
            Call::RaiseOne(kind) => self.node.raise(kind.entry(0, 0)),
            Call::Answer(room) => self.answer(room, FILLED),
            Call::AnswerZeros(room) => self.answer(room, ZEROS),
            Call::Spoil(odd) => self.spoil(odd),
            Call::PutIn(place, kind) => self.put_in(place, kind),
            Call::HeadReads => self.head_reads(),
            Call::BoxReads(most) => self.box_reads(most),
            Call::Exchanges(n) => self.exchanges(n),
            Call::Register(id) => self.world.register(id),
            Call::Take(id) => outcome(self.world.take(id)),
            Call::Request(id, room) => self.request(id, room),
            Call::PReq => self.told_preq(),
            Call::PReqWithoutEa => self.preq(false),
            Call::Asnd(room) => self.asnd(room),
        }
    }

    // Plays steps, and shows those that say what their call has to come to.
    pub fn play(&mut self, rt: &impl Print, steps: &[Step]) {
        for step in steps {
            match *step {
                Step::Quiet(call) => {
                    let _ = self.plays(call);
                }
                Step::Shown(call, expected, text) => {
                    let got = self.plays(call);
                    show(rt, got, expected, text);
                    self.world.demands(got == expected);
                }
            }
        }
    }
}

// What a call came to, the length of what was written or the number of a cause, and whether that is right.
fn show(rt: &impl Print, got: Outcome, expected: Outcome, text: &str) {
    let wrong = if got == expected { "" } else { ", WRONG" };
    let _ = match got {
        Ok(success) => println!(rt; "{success:>9}  {text}{wrong}"),
        Err(cause) => {
            let number = usize::from(cause);
            println!(rt; "{number:>9}  {text}{wrong}")
        }
    };
}
