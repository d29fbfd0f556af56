// The calls of a reporter: a controlled node's side of error signaling.
ghost use Rattle.powerlink.specs.Given.{time};
ghost use Rattle.powerlink.specs.Reporting.{ReporterMakes, ReporterRaises, ReporterAnswers, ReporterEn, ReporterReads, answer_fields};

use c_values::answers::{refusal, told, unnamed};
use c_values::values::entry_given;
use reporter::{
    AnswerFields, NewError, RaiseError, ReadOutcome, Reporter, answer, answer_len, new, raise, read,
};
use services::table::Services;
use status_response::bit_field::StaticErrorBitField;
use types::NodeId;
use types::basic::MacAddress;
use types::causes::{ENTRY_INVALID, ID_OUT_OF_RANGE, IS_STATUS_ENTRY, QUEUE_FULL};
use types::error_mode::ErrorEntryMode;
use types::hal::PowerlinkError;
use types::poll_flags::{PRFlag, RSFlag};
use types::states::NmtState;

// Makes a fresh state for a node. The name carries the interface's version, as include/powerlink.h tells.
pub fn powerlink_reporter_new_v2(state: &mut Reporter, id: u8) -> u8
    ensures { ReporterMakes id result state.old state.new }
{
    match new(state, NodeId(id)) {
        Ok(_) => 0,
        Err(NewError::IdOutOfRange) => ID_OUT_OF_RANGE,
    }
}

// An entry joins the waiting ones, last. A mode that is none is no entry's: cause 8, whatever its other values are.
pub fn powerlink_reporter_raise(
    state: &mut Reporter,
    status_entry: bool,
    send_to_queue: bool,
    mode: u8,
    profile: u16,
    code: u16,
    seconds: u32,
    nanoseconds: u32,
    information: u64,
) -> u8
    ensures { ReporterRaises status_entry send_to_queue mode profile code (time seconds nanoseconds) information result state.old state.new }
{
    match ErrorEntryMode::try_from(mode) {
        Err(_) => ENTRY_INVALID,
        Ok(mode) => {
            let entry = entry_given(
                status_entry,
                send_to_queue,
                mode,
                profile,
                code,
                seconds,
                nanoseconds,
                information,
            );
            match raise(state, entry) {
                Ok(()) => 0,
                Err(RaiseError::EntryInvalid) => ENTRY_INVALID,
                Err(RaiseError::StatusEntry) => IS_STATUS_ENTRY,
                Err(RaiseError::QueueFull) => QUEUE_FULL,
            }
        }
    }
}

// Writes a StatusResponse with the open batch, or with the batch that it opens.
pub fn powerlink_reporter_answer_v2(
    state: &mut Reporter,
    services: &Services,
    source_mac: &[u8; 6],
    dest_mac: &[u8; 6],
    ec: bool,
    pr: u8,
    rs: u8,
    nmt_state: u8,
    field: &[u8; 8],
    target: &mut [u8],
    written: &mut usize,
    octet: &mut u8,
) -> u8
    ensures { ReporterAnswers services.now (answer_fields source_mac.now dest_mac.now ec pr rs field.now) nmt_state result state.old state.new target.old target.new written.old written.new octet.old octet.new }
{
    match NmtState::try_from(nmt_state) {
        Err(e) => {
            let needed = answer_len(state);
            unnamed(e, needed, target.len(), octet)
        }
        Ok(nmt_state) => {
            let fields = AnswerFields {
                source_mac: MacAddress(*source_mac),
                dest_mac: MacAddress(*dest_mac),
                ec_flag: ec,
                pr: PRFlag::from(pr),
                rs: RSFlag(rs),
                nmt_state,
                static_error_bit_field: StaticErrorBitField::from_bytes(field),
            };
            told(answer(state, services, fields, target), written, octet)
        }
    }
}

// The EN that a PRes of this node carries.
pub fn powerlink_reporter_en(state: &Reporter, en: &mut bool) -> u8
    ensures { ReporterEn result state.now en.new }
{
    *en = reporter::en(state);
    0
}

// Reads a frame; the outcome is 0 where it is ignored, 1 where its EA closes nothing, and 2 where it closes the batch.
pub fn powerlink_reporter_read_v2(
    state: &mut Reporter,
    services: &Services,
    buffer: &[u8],
    outcome: &mut u8,
    octet: &mut u8,
) -> u8
    ensures { ReporterReads services.now buffer.now result state.old state.new outcome.old outcome.new octet.old octet.new }
{
    match read(state, services, buffer) {
        Err(e) => refusal(e, octet),
        Ok(ReadOutcome::Ignored) => {
            *outcome = 0;
            0
        }
        Ok(ReadOutcome::Kept) => {
            *outcome = 1;
            0
        }
        Ok(ReadOutcome::Closed) => {
            *outcome = 2;
            0
        }
    }
}
