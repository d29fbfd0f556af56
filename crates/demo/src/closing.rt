// The end of the simulation: the line is good, and each head's entries come to the box and are closed.
use crate::expected::BOOK_LEN;
use crate::journal::Out;
use crate::target::ROOM;
use crate::world::{Node, Scene, World};
use crate::{check, turns};

// The line gives the next frame that was not given yet.
const IN_ORDER: u64 = 15;

// Takes what is booked of the head.
fn take_all(out: &mut Out<'_, impl Eprint>, w: &mut World, node: &mut Node) {
    for _ in 0..BOOK_LEN {
        if node.head.in_book() == 0 {
            return;
        }
        turns::take(out, w, node);
    }
}

// One answer read by the box, then its next request read by the head.
fn exchange(w: &mut World, node: &mut Node) {
    turns::answer(w, node, ROOM);
    turns::box_reads(w, node, IN_ORDER);
    turns::request(w, node, ROOM);
    turns::head_reads(w, node, IN_ORDER);
    w.accounts_for(node.head);
}

// Exchanges until the head holds nothing, at most as many as it holds entries: how many.
fn close(w: &mut World, node: &mut Node) -> u64 {
    let most = node.head.held();
    for n in 0..most {
        if node.head.held() == 0 {
            return n;
        }
        exchange(w, node);
    }
    most
}

// All that a registered head has accepted is taken in the end.
fn clear(out: &mut Out<'_, impl Print + Eprint>, w: &mut World, node: &mut Node) {
    node.head.line_cleared(w.sent);
    take_all(out, w, node);
    let id = node.head.id;
    let held = node.head.held();
    let exchanges = close(w, node);
    let _ = println!(out.rt;
        "head {id}: entries open or waiting {held}, exchanges until they are closed {exchanges}"
    );
    take_all(out, w, node);
    w.demands(node.head.held() == 0);
    w.demands(node.head.taken == node.head.accepted);
}

fn finish(out: &mut Out<'_, impl Print + Eprint>, w: &mut World, node: &mut Node) {
    if node.head.registered {
        clear(out, w, node);
    } else {
        let id = node.head.id;
        let held = node.head.held();
        let _ = println!(out.rt; "head {id}: not registered, entries that stay with it {held}");
    }
}

pub fn all(out: &mut Out<'_, impl Print + Eprint>, scene: &mut Scene) {
    // By index: after each head, every head is looked at, which lends the whole scene.
    for k in 0..scene.nodes.len() {
        finish(out, &mut scene.world, &mut scene.nodes[k]);
        check::all(scene);
    }
}
