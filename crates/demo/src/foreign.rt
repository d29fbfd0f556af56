// Another supplier's head. It follows the same rules with batches of six, is known by its counts alone, and puts its frames
// together octet by octet, from the specification and not by our writers. What its answers show beside its entries is put in on
// their way (status).
use crate::account::Head;
use crate::entries::entry;
use crate::expected::answer_len;
use crate::outcome::{DONE, IGNORED, KEPT, Outcome};
use crate::places::{ENTRIES_AT, FLAGS_AT};
use crate::target::{Frame, ROOM};
use error_entry::ENTRY_LEN;
use octets::slices::put;

pub const BATCH: u64 = 6;

// How many entries it has sent once its next answer is sent; no more than one batch waits.
fn sent_then(head: Head) -> u64 {
    match head.open {
        Some(_) => head.accepted.saturating_sub(head.waiting),
        None => head.accepted,
    }
}

// EN of its next answer: it flips with each batch.
fn en(head: Head) -> bool {
    sent_then(head) / BATCH % 2 == 1
}

// Its next answer: the Ethernet header, an ASnd from 200 to all, service 2; EC, pr 1 and rs 1, state 5Dh, the error field; then
// the entries and zeros.
pub fn answer(head: Head) -> Frame {
    let mut octets = [0u8; ROOM];
    put(
        &mut octets,
        0,
        b"\x01\x11\x1E\x00\x00\x04\x02\x00\x00\x00\x00\xC8\x88\xAB\x06\xFF\xC8\x02\x10\x09\x5D\x00\x00\x00\x81\x01\x02\x03\x04\x05\x06\x07",
    );
    if en(head) {
        octets[FLAGS_AT] = 0x30;
    }
    let n = head.carried();
    let first = sent_then(head).saturating_sub(n);
    for i in 0..n.min(BATCH) {
        let e = entry(head.number, first.saturating_add(i));
        let _ = records::put(&mut octets, ENTRIES_AT + ENTRY_LEN * i as usize, e);
    }
    Frame {
        octets,
        len: answer_len(n),
    }
}

// What it makes of a frame: EA is bit 2 of octet 4 of the section, in a PReq as in an SoA.
pub fn hears(head: Head, frame: Frame) -> Outcome {
    if frame.addressed() != head.id {
        return IGNORED;
    }
    let ea = frame.octets[FLAGS_AT] / 4 % 2 == 1;
    if head.open.is_some() && ea == en(head) {
        DONE
    } else {
        KEPT
    }
}
