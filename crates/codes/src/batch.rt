// A StatusResponse that was read, written again: its batch of four entries, and five of them, which it has not.
use crate::print::{FILL, written};
use error_entry::{ENTRY_LEN, ErrorEntry};
use octets::slices::tail;
use status_response::entries::serialize_batch;
use status_response::fields::{DeserializedStatus, FRONT_LEN, deserialize};
use std::io;

const SPACE: usize = 160;

const PAYLOAD: &[u8] =
    b"\x20\x37\xFD\x00\x00\x00\xA1\xB1\xB2\xB3\xB4\xB5\xB6\xB7\xFF\x9F\x78\x56\x01\x02\x03\x04\x05\x06\x07\x08\x09\x0A\x0B\x0C\x0D\x0E\x0F\x10\x01\x70\x01\x00\x02\x00\x00\x00\x03\x00\x00\x00\x04\x00\x00\x00\x00\x00\x00\x00\x05\x00\x06\x00\x07\x00\x00\x00\x08\x00\x00\x00\x09\x00\x00\x00\x00\x00\x00\x00\x23\xE1\xFF\xFE\xFF\xFF\xFF\xFF\x00\x00\x00\x00\xFF\xFF\xFF\xFF\xFF\xFF\xFF\xFF";

// The first `n` entries of the payload, into `len` octets. `n` stands beside the batch, as `serialize_batch` takes it.
fn write(rt: &impl Print, read: DeserializedStatus, n: usize, len: usize) -> io::Result<()> {
    let entry = |at| ErrorEntry::or_terminator(ErrorEntry::deserialize(tail(PAYLOAD, at)));
    let batch = [
        entry(FRONT_LEN),
        entry(FRONT_LEN + ENTRY_LEN),
        entry(FRONT_LEN + 2 * ENTRY_LEN),
        entry(FRONT_LEN + 3 * ENTRY_LEN),
    ];
    let mut space = [FILL; SPACE];
    let target = &mut space[..len.min(SPACE)];
    let answer = serialize_batch(read.fields, read.static_error_bit_field, batch, n, target);
    written(rt, answer, target)
}

pub fn all(rt: &impl Print) -> io::Result<()> {
    let Ok(read) = deserialize(PAYLOAD) else {
        return Ok(());
    };
    for (n, len) in [(4, 0), (4, 14), (4, 113), (4, 114), (4, 115), (5, SPACE)] {
        write(rt, read, n, len)?;
    }
    Ok(())
}
