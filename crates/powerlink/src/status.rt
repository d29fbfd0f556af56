// The payload of a StatusResponse: its front, its error field and its entries.
ghost use Rattle.status_response.specs.BitField.{field_of, field_bytes};
ghost use Rattle.powerlink.specs.Given.{time, EntryWrites, status_writing};
ghost use Rattle.powerlink.specs.Reading.{StatusRead, FieldRead, EntryRead, StepRead};
ghost use Rattle.powerlink.specs.Writing.{WritesTo, WritesCoded};

use crate::frame_values::status_values;
use c_values::answers::{refusal, written_or};
use c_values::values::{entry_given, entry_values};
use error_entry::{ENTRY_LEN, ErrorEntry};
use octets::slices::tail;
use status_response::bit_field::{StaticErrorBitField, field_at};
use status_response::fields::{FIELD_AT, STATE_AT, StatusFields, read_fields};
use status_response::given;
use status_response::walk::step_from;
use types::causes::{ENTRY_INVALID, TOO_SHORT};
use types::error_mode::ErrorEntryMode;
use types::hal::PowerlinkError;
use types::poll_flags::{PRFlag, RSFlag};
use types::states::NmtState;

// Reads what stands in front of the entries: en, ec, pr, rs and state, and the error field.
pub fn powerlink_deserialize_status(
    payload: &[u8],
    values: &mut [u64; 5],
    field: &mut [u8; 8],
    octet: &mut u8,
) -> u8
    ensures { StatusRead payload.now result values.old values.new field.old field.new octet.old octet.new }
{
    // The two readings that `deserialize` joins: where a refusal has its error field too, the answer goes through memory, and takes three
    // times as long.
    match read_fields(payload) {
        Err(e) => refusal(e, octet),
        Ok(fields) => {
            let mut numbers = status_values(fields);
            // The state's number is its octet: the compiler then makes no table of states.
            numbers[4] = payload[STATE_AT] as u64;
            *values = numbers;
            *field = field_at(tail(payload, FIELD_AT)).to_bytes();
            0
        }
    }
}

// Reads the static error bit field (EPSG DS 301, 6.5.8.1) by itself.
pub fn powerlink_deserialize_error_field(buffer: &[u8], field: &mut [u8; 8]) -> u8
    ensures { FieldRead buffer.now result field.old field.new }
{
    match StaticErrorBitField::deserialize(buffer) {
        Err(refused) => refused.error.number(),
        Ok(bits) => {
            *field = bits.to_bytes();
            0
        }
    }
}

// Reads one entry: status entry, send to queue, mode, profile, code, seconds, nanoseconds, information.
pub fn powerlink_deserialize_entry(buffer: &[u8], values: &mut [u64; 8]) -> u8
    ensures { EntryRead buffer.now result values.old values.new }
{
    match ErrorEntry::deserialize(buffer) {
        Err(e) => e.number(),
        Ok(e) => {
            *values = entry_values(e);
            0
        }
    }
}

// One step of the walk over the entries, the first of which is at offset 14. No entry ends at offset 0: it tells the end.
pub fn powerlink_entry_step(
    payload: &[u8],
    offset: usize,
    values: &mut [u64; 8],
    next: &mut usize,
) -> u8
    ensures { StepRead payload.now offset result values.old values.new next.new }
{
    match step_from(payload, offset) {
        None => *next = 0,
        Some((e, after)) => {
            *values = entry_values(e);
            *next = after;
        }
    }
    0
}

// Writes one entry (EPSG DS 301, Table 94), a terminator too. A mode that is none is no entry's: cause 8, after 1.
pub fn powerlink_serialize_entry(
    status_entry: bool,
    send_to_queue: bool,
    mode: u8,
    profile: u16,
    code: u16,
    seconds: u32,
    nanoseconds: u32,
    information: u64,
    target: &mut [u8],
    written: &mut usize,
) -> u8
    ensures { EntryWrites status_entry send_to_queue mode profile code (time seconds nanoseconds) information result target.old target.new written.old written.new }
{
    match ErrorEntryMode::try_from(mode) {
        Err(_) => {
            if target.len() < ENTRY_LEN {
                return TOO_SHORT;
            }
            ENTRY_INVALID
        }
        Ok(mode) => {
            let entry = entry_given(
                status_entry,
                send_to_queue,
                mode,
                profile,
                code,
                seconds,
                nanoseconds,
                information,
            );
            let answer = entry.serialize(target);
            written_or(answer, written)
        }
    }
}

// Writes the static error bit field by itself.
pub fn powerlink_serialize_error_field(
    field: &[u8; 8],
    target: &mut [u8],
    written: &mut usize,
) -> u8
    ensures { WritesTo (field_bytes (field_of field.now)) result target.old target.new written.old written.new }
{
    let bits = StaticErrorBitField::from_bytes(field);
    let answer = bits.serialize(target);
    written_or(answer, written)
}

// Writes the payload of a StatusResponse. `entries` are the octets of the entries, 20 each; a rest is an entry that is too
// short: cause 1.
pub fn powerlink_serialize_status(
    en: bool,
    ec: bool,
    pr: u8,
    rs: u8,
    state: u8,
    field: &[u8; 8],
    entries: &[u8],
    target: &mut [u8],
    written: &mut usize,
    octet: &mut u8,
) -> u8
    ensures { WritesCoded (status_writing en ec pr rs state field.now entries.now) result target.old target.new written.old written.new octet.old octet.new }
{
    match NmtState::try_from(state) {
        // Cause 1 comes first; where the code is a state's, the writer tests for it.
        Err(e) => {
            if !given::fits(entries, target.len()) {
                return TOO_SHORT;
            }
            refusal(e, octet)
        }
        Ok(nmt_state) => {
            let fields = StatusFields {
                en_flag: en,
                ec_flag: ec,
                pr: PRFlag::from(pr),
                rs: RSFlag(rs),
                nmt_state,
            };
            let bits = StaticErrorBitField::from_bytes(field);
            let answer = given::serialize(fields, bits, entries, target);
            written_or(answer, written)
        }
    }
}
