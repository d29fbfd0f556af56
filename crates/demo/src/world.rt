// What the calls work on: the world, and a head of it.
ghost use Rattle.std.specs.Prelude.{◌≡◌, ◌≢◌, true, false, Ok, MatchResult, IsErrAnd};
ghost use Rattle.demo.specs.Counts.{came_to, clean, demanded, written};
ghost use Rattle.demo.specs.World.{first_node, first_world, first_scene};

use crate::account::Head;
use crate::cause::{CAUSES, Cause};
use crate::house;
use crate::line::Line;
use crate::outcome::Outcome;
use crate::target::{Frame, Target};
use collector::{COLLECTOR_LEN, Collector};
use reporter::{REPORTER_LEN, Reporter};
use services::table::Services;

// A head: its account; its state, for which another supplier's has no use; and the table of services that the calls at its turn
// go by, at the head and at the box.
#[derive(Clone, Copy)]
pub struct Node {
    pub head: Head,
    pub state: Reporter,
    pub services: Services,
}

impl Node {
    pub fn new(number: usize, id: u8) -> Self
        ensures { result ≡ first_node number id }
    {
        let mut node = Node {
            head: Head::new(number, id),
            state: [0u8; REPORTER_LEN],
            services: house::table_of(number),
        };
        let _ = node.renew(id);
        node
    }
}

#[derive(Clone, Copy)]
pub struct World {
    pub at_box: Collector,
    // The last frames of each sender.
    pub line: Line,
    // Calls, and the refusals among them by cause.
    pub calls: u64,
    pub refusals: [u64; CAUSES],
    // How often something does not hold that 01 or 02 says of a call, or of the calls so far.
    pub faults: u64,
    // Frames that the managing node sent, in one row: the box's requests, and those that its host sent by itself.
    pub sent: u64,
    pub by_host: u64,
}

impl World {
    pub fn new() -> Self
        ensures { result ≡ first_world }
    {
        World {
            at_box: [0u8; COLLECTOR_LEN],
            line: Line::new(),
            calls: 0,
            refusals: [0u64; CAUSES],
            faults: 0,
            sent: 0,
            by_host: 0,
        }
    }

    pub fn demands(&mut self, holds: bool)
        ensures { self.new ≡ demanded holds self.old }
    {
        if !holds {
            self.faults = self.faults.saturating_add(1);
        }
    }

    // A writer was called: its frame, with nothing written behind it, or in a target that it refused.
    pub fn has_written<E>(&mut self, target: Target, got: Result<usize, E>) -> Result<Frame, Cause>
    where
        Cause: From<E>,
        ensures state { self.new ≡ demanded (clean (written got) target) self.old }
        ensures frame { MatchResult got (λ len. result ≡ Ok (record { octets = target.space; len = len })) (λ e. IsErrAnd result (bound-1.from_gives e)) }
    {
        match got {
            Ok(len) => {
                self.demands(target.is_clean(len));
                Ok(target.frame(len))
            }
            Err(e) => {
                self.demands(target.is_clean(0));
                Err(Cause::from(e))
            }
        }
    }

    // A call is counted: it has to have come to what 01 gives it.
    pub fn comes_to(&mut self, got: Outcome, expected: Outcome)
        ensures met { got ≡ expected → self.new ≡ came_to got true self.old }
        ensures unmet { got ≢ expected → self.new ≡ came_to got false self.old }
    {
        self.calls = self.calls.saturating_add(1);
        if let Err(cause) = got {
            let n = &mut self.refusals[usize::from(cause)];
            *n = n.saturating_add(1);
        }
        self.demands(got == expected);
    }
}

pub const HEADS: usize = 5;

// The world with all heads.
#[derive(Clone, Copy)]
pub struct Scene {
    pub nodes: [Node; HEADS],
    pub world: World,
}

impl Scene {
    // A fresh box, and the heads, in a world that has played the lines to check.
    pub fn new(mut world: World) -> Self
        ensures { result ≡ first_scene world }
    {
        collector::new(&mut world.at_box);
        Scene {
            nodes: [
                Node::new(0, 7),
                Node::new(1, 21),
                Node::new(2, 120),
                Node::new(3, 239),
                Node::new(4, 200),
            ],
            world,
        }
    }
}
