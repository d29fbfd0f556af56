// The octets of the state: a block for each of four nodes, with its control octets and then the records of its book.
ghost use Rattle.std.specs.Prelude.{ℕ, ◌≡◌, ◌+◌, ◌≤◌, ◌<◌, set, length, get_or};
ghost use Rattle.collector.specs.Layout.{block, block_found, control_length, collector_length, find_of, slot_of, ea_in, start_in, count_in, record_length, record_place, placed_bytes, ea_bytes};
ghost use Rattle.collector.specs.Rules.{heads, book_length};

use crate::{
    BLOCK_LEN, CONTROL_LEN, COUNT_AT, Collector, EA_AT, NODE_AT, PLACES, RECORD_LEN, START_AT,
};
use std::marker::Model;

// The nodes that can be registered.
pub const NODES: usize = 4;

// A block of the state, by its number below NODES. `find` alone makes one.
#[derive(Clone, Copy)]
pub(crate) struct Block {
    number: usize,
}

impl Model for Block {
    ghost Value = { ℕ };

    ghost view = { λ b. b.number };

    ghost invariant = { λ b. b.number < heads };

    ghost inverse = { λ k. record { number = k } };
}

// The first block whose node ID is `id`.
#[tactic(auto, unfolding(crate::specs::Layout::find_of, crate::specs::Layout::node_in))]
pub(crate) fn find(state: &Collector, id: u8) -> Option<Block>
    ensures { result ≡ block_found (find_of state.now id) }
{
    for number in 0..NODES {
        if state[BLOCK_LEN * number + NODE_AT] == id {
            return Some(Block { number });
        }
    }
    None
}

// The block of a registered node. No node has the ID 0.
#[tactic(auto, unfolding(crate::specs::Layout::slot_of))]
pub(crate) fn slot(state: &Collector, id: u8) -> Option<Block>
    ensures { result ≡ block_found (slot_of state.now id) }
{
    if id == 0 {
        return None;
    }
    find(state, id)
}

impl Block {
    // A control octet.
    fn octet(self, state: &Collector, at: usize) -> u8
        requires { at < control_length }
        ensures { result ≡ get_or state.now (block self + at) 0 }
    {
        state[BLOCK_LEN * self.number + at]
    }

    pub(crate) fn set_octet(self, state: &mut Collector, at: usize, octet: u8)
        requires { at < control_length }
        ensures { state.new ≡ set state.old (block self + at) octet }
    {
        state[BLOCK_LEN * self.number + at] = octet;
    }

    #[tactic(auto, unfolding(crate::specs::Layout::ea_in))]
    pub(crate) fn ea(self, state: &Collector) -> bool
        ensures { result ≡ ea_in state.now self }
    {
        self.octet(state, EA_AT) % 2 == 1
    }

    pub(crate) fn set_ea(self, state: &mut Collector, ea: bool)
        ensures { state.new ≡ ea_bytes state.old self ea }
    {
        self.set_octet(state, EA_AT, u8::from(ea));
    }

    #[tactic(auto, unfolding(crate::specs::Layout::start_in))]
    pub(crate) fn start(self, state: &Collector) -> u8
        ensures { (result ≡ start_in state.now self) × (result < book_length) }
    {
        self.octet(state, START_AT) % PLACES
    }

    #[tactic(auto, unfolding(crate::specs::Layout::count_in))]
    pub(crate) fn count(self, state: &Collector) -> u8
        ensures { (result ≡ count_in state.now self) × (result ≤ book_length) }
    {
        self.octet(state, COUNT_AT).min(PLACES)
    }

    // Where the record at a place of the book's ring begins.
    pub(crate) fn record_place(self, place: u8) -> usize
        ensures { (result ≡ record_place self place) × (result + record_length ≤ collector_length) }
    {
        BLOCK_LEN * self.number + CONTROL_LEN + RECORD_LEN * usize::from(place % PLACES)
    }

    // Gives the block to a node: EA 0 and an empty book.
    #[tactic(auto, unfolding(crate::specs::Layout::placed_bytes))]
    pub(crate) fn place_node(self, state: &mut Collector, id: u8)
        ensures { state.new ≡ placed_bytes state.old self id }
    {
        self.set_octet(state, NODE_AT, id);
        self.set_octet(state, EA_AT, 0);
        self.set_octet(state, START_AT, 0);
        self.set_octet(state, COUNT_AT, 0);
    }
}
