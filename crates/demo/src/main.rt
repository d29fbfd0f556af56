// The error exchange of one box and five heads, on a line that drops, delays and repeats. First the lines to check, one by
// one. Then the simulation: after every call, each entry that a head accepted has to be in one place and only once.
//
// Heads 7, 120 and 239 are ours and registered; 21 is ours and is not; 200 is another supplier's, and each of its answers reaches
// the box with status entries. Heads 21 and 239 are under a house's table of services, the others under the twelve of DS 301.
// The managing node's host sends frames of its own between the box's requests. The run has no input and is the same each time,
// so what it writes is compared with what is stored. With the name of a file, what the box hands out is written there as a
// journal.
#![tactic(auto)]

mod account;
mod calls;
mod cause;
mod check;
mod closing;
mod entries;
mod expected;
mod fields;
mod foreign;
mod host;
mod house;
mod journal;
mod line;
mod lines;
mod odd;
mod outcome;
mod places;
mod script;
mod simulate;
mod status;
mod table;
mod target;
mod turns;
mod world;

use cause::Cause;
use journal::Out;
use octets::slices::front;
use outcome::{DONE, Outcome};
use std::env::{Env, FillError};
use std::fs::File;
use std::rt::Files;
use std::str::from_utf8;
use world::{HEADS, Scene};

// The longest name of a file that the system takes, with the zero behind it.
const PATH_MAX: usize = 4096;

// Calls before the fourth head is registered, and after.
const FIRST_PART: u64 = 20000;

const SECOND_PART: u64 = 60000;

fn register(scene: &mut Scene, number: usize, expected: Outcome) {
    let node = &mut scene.nodes[number % HEADS];
    let got = scene.world.register(node.head.id);
    scene.world.comes_to(got, expected);
    node.head.registered = got == DONE;
}

// The simulation: three of our heads are registered from the start, and the other supplier's takes the fourth place later, so
// that there is none for 21.
fn simulated(out: &mut Out<'_, impl Eprint>, scene: &mut Scene) {
    register(scene, 0, DONE);
    register(scene, 2, DONE);
    register(scene, 3, DONE);
    simulate::run(out, scene, FIRST_PART);
    register(scene, 4, DONE);
    register(scene, 1, Err(Cause::BoxFull));
    simulate::run(out, scene, SECOND_PART);
}

fn demo(out: &mut Out<'_, impl Print + Eprint>) {
    let _ = println!(out.rt;
        "lines to check: the cause of a refusal, a length, or what a call came to"
    );
    let mut scene = Scene::new(lines::play(out.rt));
    let _ = println!(out.rt;
        "the simulation: entries, then answers on their way to the box; head 200 is another supplier's, with batches of 6\n\
        and status entries in every answer, which are not booked\n\
        every second head, 21 and 239, is under the house's table of services, the others under the twelve of DS 301"
    );
    simulated(out, &mut scene);
    table::simulated(out.rt, &mut scene);
    let _ = println!(out.rt; "the line is good from here on");
    closing::all(out, &mut scene);
    table::verdict(out, &mut scene);
}

// The same with the journal of this name.
fn demo_to(rt: &(impl Files<File = File> + Print + Eprint + Alloc), path: &str) {
    match File::create(rt, path) {
        Ok(file) => {
            if let Some(mut out) = Out::with_journal(rt, &file) {
                demo(&mut out);
            }
        }
        Err(e) => journal::fail(rt, path, e),
    }
}

// The same with the journal that the argument names.
fn demo_to_file(rt: &(impl Files<File = File> + Env + Print + Eprint + Alloc)) {
    let mut path = [0u8; PATH_MAX];
    match rt.arg(1, &mut path) {
        Ok(n) => match from_utf8(front(&path, n)) {
            Ok(path) => demo_to(rt, path),
            Err(_) => journal::complain(rt, "the journal's name is not UTF-8"),
        },
        Err(_) => journal::complain(rt, "File name too long"),
    }
}

fn is_given(rt: &impl Env, argument: usize) -> bool {
    !matches!(rt.arg(argument, &mut [0u8; 1]), Err(FillError::NotPresent))
}

fn main(rt: HostRuntime) {
    if is_given(&rt, 2) {
        let _ = eprintln!(&rt;
            "usage: demo [FILE]\nWith FILE, what the box hands out is written there as a journal."
        );
    } else if is_given(&rt, 1) {
        demo_to_file(&rt);
    } else {
        demo(&mut Out::new(&rt));
    }
}
