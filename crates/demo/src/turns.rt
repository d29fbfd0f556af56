// The turns of the simulation: a call for a head, judged by what 01 has it come to, and counted in the head's account.
// World and node come apart, as the scene lends them: a struct of both would be made for each turn.
use crate::cause::Cause;
use crate::entries::{Kind, entry};
use crate::expected::{self, FRAME_LEN, answer_len};
use crate::fields::{FILLED, MANAGING_NODE_ID};
use crate::foreign;
use crate::journal::Out;
use crate::line::{MANAGING_NODE, pick};
use crate::odd::{FOR_BOTH, STRANGER};
use crate::outcome::{DONE, Outcome, outcome};
use crate::status::put_some;
use crate::target::Frame;
use crate::world::{Node, World};

// Raises an entry, now and then an invalid one. A batch of the other supplier's head comes about at once.
pub fn raise(w: &mut World, node: &mut Node, chance: u64) {
    let head = node.head;
    if head.is_ours() {
        let kind = Kind::by(chance);
        let got = node.raise(kind.entry(head.number, head.accepted));
        w.comes_to(got, expected::raising(head, kind));
        node.head.has_raised(1, got == DONE);
    } else if head.waiting == 0 {
        node.head.has_raised(foreign::BATCH, true);
    }
}

// Answers into a target of `room` octets, and sends what is written.
pub fn answer(w: &mut World, node: &mut Node, room: usize) {
    let head = node.head;
    let got = if head.is_ours() {
        let got = w.answer(node, room, FILLED);
        w.comes_to(
            outcome(got),
            expected::writing(answer_len(head.carried()), room),
        );
        got
    } else {
        Ok(foreign::answer(head))
    };
    if let Ok(frame) = got {
        w.line.takes(head.number, head.sent, frame);
        node.head.has_answered();
    }
}

// The box reads the answer of the head that the line gives; another supplier's has status entries among its own.
pub fn box_reads(w: &mut World, node: &mut Node, chance: u64) {
    let head = node.head;
    let Some(number) = pick(head.read, head.sent, chance) else {
        return;
    };
    let mut frame = w.line.gives(head.number, number);
    if !head.is_ours() {
        frame = put_some(frame, head.number, chance / 16);
    }
    let got = w.box_read(node, frame.bytes());
    w.comes_to(got, expected::booking(head, number));
    node.head.has_reported(number, got == DONE, w.sent);
}

// The managing node sends what was written, which has to come to this.
fn manager_sends(w: &mut World, got: Result<Frame, Cause>, expected: Outcome) {
    w.comes_to(outcome(got), expected);
    if let Ok(frame) = got {
        w.line.takes(MANAGING_NODE, w.sent, frame);
        w.sent = w.sent.saturating_add(1);
    }
}

// The box writes a request to the head into a target of `room` octets, and sends it.
pub fn request(w: &mut World, node: &Node, room: usize) {
    let got = w.request(node.head.id, room);
    manager_sends(w, got, expected::requesting(node.head, room));
}

// The managing node's host sends the head a PReq or an IdentRequest.
pub fn host_sends(w: &mut World, node: &Node, chance: u64) {
    let flags = w.flags_for(node);
    let got = if chance % 2 == 0 {
        w.host_preq(node, flags.ea)
    } else {
        w.host_ident_request(node, flags)
    };
    manager_sends(w, got, expected::writing(FRAME_LEN, FRAME_LEN));
    w.by_host = w.by_host.saturating_add(1);
}

// The head reads the frame of the managing node that the line gives.
pub fn head_reads(w: &mut World, node: &mut Node, chance: u64) {
    let head = node.head;
    let Some(number) = pick(head.heard, w.sent, chance) else {
        return;
    };
    let frame = w.line.gives(MANAGING_NODE, number);
    let got = if head.is_ours() {
        node.read(frame.bytes())
    } else {
        foreign::hears(head, frame)
    };
    w.comes_to(got, expected::hearing(head, number, frame.addressed()));
    node.head.has_heard(number, got == DONE);
}

// Takes the oldest entry of the head, which has to be the next one that it raised.
pub fn take(out: &mut Out<'_, impl Eprint>, w: &mut World, node: &mut Node) {
    let head = node.head;
    let got = w.take(head.id);
    w.comes_to(outcome(got), expected::taking(head));
    if let Ok(e) = got {
        w.demands(e == entry(head.number, head.taken));
        out.record(head.id, e);
        node.head.has_handed_out();
    }
}

// The box is given damaged octets, a frame of another kind or node, or the head's PRes.
pub fn box_reads_odd(w: &mut World, node: &Node, chance: u64) {
    let head = node.head;
    let Some(last) = head.sent.checked_sub(1) else {
        return;
    };
    let (given, expected) = match FOR_BOTH.get(chance as usize % (FOR_BOTH.len() + 1)) {
        Some(odd) => (
            Ok(odd.of(w.line.gives(head.number, last), head.id)),
            odd.box_makes(head.number),
        ),
        None => (w.pres(node), Err(Cause::NotStatusResponse)),
    };
    let got = given.and_then(|frame| w.box_read(node, frame.bytes()));
    w.comes_to(got, expected);
}

// The head is given damaged octets, or a frame of another node.
pub fn head_reads_odd(w: &mut World, node: &mut Node, chance: u64) {
    let head = node.head;
    let Some(last) = w.sent.checked_sub(1) else {
        return;
    };
    let odd = FOR_BOTH[chance as usize % FOR_BOTH.len()];
    let frame = odd.of(w.line.gives(MANAGING_NODE, last), head.id);
    let got = node.read(frame.bytes());
    w.comes_to(got, odd.head_makes(head.number));
}

// Calls for a node that is not registered, and registering that is refused.
// A `match`, as in `simulate::act`: closures would have to take all that any of them needs.
pub fn box_refuses(w: &mut World, node: &Node, chance: u64) {
    let (got, cause) = match chance % 5 {
        0 => (outcome(w.take(STRANGER)), Cause::NotRegistered),
        1 => (outcome(w.request(STRANGER, 40)), Cause::NotRegistered),
        2 => (w.register(0), Cause::IdOutOfRange),
        3 => (w.register(MANAGING_NODE_ID), Cause::IdOutOfRange),
        _ if node.head.registered => (w.register(node.head.id), Cause::IdRegistered),
        _ => return,
    };
    w.comes_to(got, Err(cause));
}
