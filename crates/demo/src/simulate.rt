// The simulation: one call after another, by a fixed rule in place of chance.
use crate::journal::Out;
use crate::target::ROOM;
use crate::world::{HEADS, Node, Scene, World};
use crate::{check, turns};

// The largest prime below 2^31.
const MODULUS: u64 = 2147483647;

fn next(chance: u64) -> u64 {
    chance % MODULUS * 48271 % MODULUS
}

// The room of a target: now and then too little.
fn room(chance: u64) -> usize {
    if chance % 8 == 0 {
        (chance / 8 % 140) as usize
    } else {
        ROOM
    }
}

// For 8,000 calls in turn a head's entries are not taken, so that its book fills.
fn take(out: &mut Out<'_, impl Eprint>, w: &mut World, node: &mut Node) {
    if w.calls / 8000 % 5 != node.head.number as u64 {
        turns::take(out, w, node);
    }
}

// What a head's turn does. A `match`: in a table of closures each would have to be told all that any of them takes.
fn act(out: &mut Out<'_, impl Eprint>, w: &mut World, node: &mut Node, chance: u64) {
    let rest = chance / 32;
    match chance % 32 {
        0..=1 => turns::raise(w, node, rest),
        2..=5 => turns::answer(w, node, room(rest)),
        6..=9 => turns::box_reads(w, node, rest),
        10..=11 => turns::request(w, node, room(rest)),
        12..=13 => turns::host_sends(w, node, rest),
        24..=28 => take(out, w, node),
        29 => turns::box_reads_odd(w, node, rest),
        30 => turns::head_reads_odd(w, node, rest),
        31 => turns::box_refuses(w, node, rest),
        _ => turns::head_reads(w, node, rest),
    }
}

// Makes a number of calls, and after each looks at every head. That number also starts the row of chances.
pub fn run(out: &mut Out<'_, impl Eprint>, scene: &mut Scene, turns: u64) {
    let mut chance = turns;
    for _ in 0..turns {
        chance = next(chance);
        let node = &mut scene.nodes[chance as usize % HEADS];
        act(out, &mut scene.world, node, chance / HEADS as u64);
        check::all(scene);
    }
}
