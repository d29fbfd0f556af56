// What 01 has a call come to, by the calls before it as they are counted.
use crate::account::Head;
use crate::cause::Cause;
use crate::entries::Kind;
use crate::outcome::{DONE, IGNORED, KEPT, KNOWN, Outcome, Success};
use error_entry::ENTRY_LEN;

// The entries that may wait.
const QUEUE_LEN: u64 = 16;

// The places of a book.
pub const BOOK_LEN: u64 = 64;

// The octets of a frame without payload, as requests are and what the host sends: the shortest of Ethernet.
pub const FRAME_LEN: usize = 60;

// The octets of an answer beside its entries: those in front of them, and the terminator.
pub const BARE_LEN: usize = 52;

// The most entries that an answer reaches the box with: six of the other supplier's, and three that show a status.
pub const MOST_ENTRIES: u64 = 9;

// The octets of an answer with so many entries, as far as nine.
pub fn answer_len(n: u64) -> usize {
    if n == 0 {
        return FRAME_LEN;
    }
    BARE_LEN + ENTRY_LEN * (n % (MOST_ENTRIES + 1)) as usize
}

// A writer, where the target has `room` octets and `len` are needed.
pub fn writing(len: usize, room: usize) -> Outcome {
    if room < len {
        Err(Cause::TooShort)
    } else {
        Ok(Success::Written(len))
    }
}

// Raise of an entry of a kind: bit 15 is tested after cause 8 and before cause 9 (02, CR 2).
pub fn raising(head: Head, kind: Kind) -> Outcome {
    match kind {
        Kind::Terminator | Kind::WideProfile | Kind::StatusTerminator => Err(Cause::EntryInvalid),
        Kind::Status => Err(Cause::StatusEntry),
        Kind::Valid if head.waiting < QUEUE_LEN => DONE,
        Kind::Valid => Err(Cause::QueueFull),
    }
}

// Of the box, for the head.
fn registered(head: Head) -> Result<(), Cause> {
    if head.registered {
        Ok(())
    } else {
        Err(Cause::NotRegistered)
    }
}

// The box's reading of the head's answer with this number.
pub fn booking(head: Head, number: u64) -> Outcome {
    registered(head)?;
    match head.open {
        Some(batch) if batch.told_from.is_none() && batch.opened_at <= number => {
            if BOOK_LEN < head.in_book().saturating_add(batch.entries) {
                Err(Cause::BookFull)
            } else {
                DONE
            }
        }
        _ => KNOWN,
    }
}

// The box's request to the head.
pub fn requesting(head: Head, room: usize) -> Outcome {
    registered(head)?;
    writing(FRAME_LEN, room)
}

// The head's reading of the managing node's frame with this number, for this node.
pub fn hearing(head: Head, number: u64, node: u8) -> Outcome {
    if node != head.id {
        return IGNORED;
    }
    match head.open.and_then(|batch| batch.told_from) {
        Some(first) if first <= number => DONE,
        _ => KEPT,
    }
}

// Take for the head's ID.
pub fn taking(head: Head) -> Outcome {
    registered(head)?;
    if head.in_book() == 0 {
        return Err(Cause::NothingBooked);
    }
    DONE
}
