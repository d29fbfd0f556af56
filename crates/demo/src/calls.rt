// The calls, as the lines to check and the simulation make them.
ghost use Rattle.std.specs.Prelude.{◌≡◌, Err, MatchResult, IsOkAnd, IsErrAnd};
ghost use Rattle.reporter.specs.Rules.{new_answer, new_cause};
ghost use Rattle.demo.specs.Causes.{number};
ghost use Rattle.demo.specs.World.{renewed};
ghost use Rattle.demo.specs.declared.outcome.Success.TheVariants.{Done};

use crate::cause::Cause;
use crate::fields::{answer_fields, request_fields};
use crate::outcome::{Outcome, outcome};
use crate::target::{Frame, Target};
use crate::world::{Node, World};
use error_entry::ErrorEntry;
use services::load::load;
use types::NodeId;

impl Node {
    // A fresh state of this ID.
    pub fn renew(&mut self, id: u8) -> Outcome
        ensures state { self.new ≡ renewed id self.old }
        ensures outcome { MatchResult (new_answer id) (λ _. IsOkAnd result (λ s. s ≡ Done)) (λ e. IsErrAnd result (λ c. number c ≡ (new_cause (Err e)).number)) }
    {
        outcome(reporter::new(&mut self.state, NodeId(id)))
    }

    pub fn raise(&mut self, e: ErrorEntry) -> Outcome {
        outcome(reporter::raise(&mut self.state, e))
    }

    // The head reads a frame.
    pub fn read(&mut self, octets: &[u8]) -> Outcome {
        outcome(reporter::read(&mut self.state, &self.services, octets))
    }

    // Another table of services, in place of the one that the calls go by.
    pub fn load(&mut self, file: &[u8]) -> Outcome {
        outcome(load(file, &mut self.services))
    }
}

impl World {
    // A head's answer into a target of `room` octets; `some` goes into its fields.
    pub fn answer(&mut self, node: &mut Node, room: usize, some: u8) -> Result<Frame, Cause> {
        let mut target = Target::new(room);
        let fields = answer_fields(node.head.id, some);
        let got = reporter::answer(&mut node.state, &node.services, fields, target.lend());
        self.has_written(target, got)
    }

    // The box reads a frame, under a head's table.
    pub fn box_read(&mut self, node: &Node, octets: &[u8]) -> Outcome {
        outcome(collector::read(&mut self.at_box, &node.services, octets))
    }

    pub fn register(&mut self, id: u8) -> Outcome {
        outcome(collector::register(&mut self.at_box, NodeId(id)))
    }

    // The box's request into a target of `room` octets.
    pub fn request(&mut self, id: u8, room: usize) -> Result<Frame, Cause> {
        let mut target = Target::new(room);
        let got = collector::request(&self.at_box, NodeId(id), request_fields(), target.lend());
        self.has_written(target, got)
    }

    pub fn take(&mut self, id: u8) -> Result<ErrorEntry, Cause> {
        Ok(collector::take(&mut self.at_box, NodeId(id))?)
    }
}
