// Status entries, which the second supplier's heads send in every answer (02, CR 2). They are put in as an answer reaches the
// box: when the line repeats it, and when the head sends its batch again, they are others.
use crate::entries::status;
use crate::expected::{BARE_LEN, MOST_ENTRIES, answer_len};
use crate::places::ENTRIES_AT;
use crate::target::{Frame, ROOM};
use error_entry::{ENTRY_LEN, ErrorEntry};

// An entry joins those of an answer, eight at most, behind the first `place` of them, or last.
pub fn put_in(answer: Frame, place: u64, e: ErrorEntry) -> Frame {
    let n = (answer.len.saturating_sub(BARE_LEN) / ENTRY_LEN) as u64;
    let before = (place.min(n) % MOST_ENTRIES) as usize;
    let at = ENTRIES_AT + ENTRY_LEN * before;
    let mut octets = answer.octets;
    octets.copy_within(at..ROOM - ENTRY_LEN, at + ENTRY_LEN);
    let _ = records::put(&mut octets, at, e);
    Frame {
        octets,
        len: answer_len(n.saturating_add(1)),
    }
}

// One to three status entries of a head join those of an answer, anywhere.
pub fn put_some(answer: Frame, head: usize, chance: u64) -> Frame {
    let mut frame = answer;
    let mut rest = chance / 3;
    for _ in 0..chance % 3 + 1 {
        frame = put_in(frame, rest % MOST_ENTRIES, status(head, rest));
        rest /= MOST_ENTRIES;
    }
    frame
}
