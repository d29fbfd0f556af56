// The calls of a collector: the managing node's side of error signaling.
ghost use Rattle.powerlink.specs.Collecting.{CollectorMakes, CollectorRegisters, CollectorReads, CollectorFlags, CollectorRequests, CollectorTakes, request_fields};

use c_values::answers::{refusal, unnamed};
use c_values::values::entry_values;
use collector::{
    Collector, ReadError, ReadOutcome, RegisterError, RequestError, RequestFields, TakeError,
    flags, is_registered, new, read, register, request, take,
};
use section::MIN_FRAME;
use services::table::Services;
use types::basic::MacAddress;
use types::causes::{
    BOOK_FULL, FOUR_REGISTERED, ID_OUT_OF_RANGE, ID_REGISTERED, NOT_REGISTERED,
    NOT_STATUS_RESPONSE, NOTHING_BOOKED,
};
use types::hal::PowerlinkError;
use types::states::NmtState;
use types::{EPLVersion, NodeId};

// Makes a fresh state: no node is registered. The name carries the interface's version, as include/powerlink.h tells.
pub fn powerlink_collector_new_v2(state: &mut Collector) -> u8
    ensures { CollectorMakes result state.new }
{
    new(state);
    0
}

// Gives a node a place, with EA 0 and an empty book.
pub fn powerlink_collector_register(state: &mut Collector, id: u8) -> u8
    ensures { CollectorRegisters id result state.old state.new }
{
    match register(state, NodeId(id)) {
        Ok(()) => 0,
        Err(RegisterError::IdOutOfRange) => ID_OUT_OF_RANGE,
        Err(RegisterError::IdRegistered) => ID_REGISTERED,
        Err(RegisterError::Full) => FOUR_REGISTERED,
    }
}

// Reads a frame; the outcome is 0 where its batch was booked before, and 1 where it is booked now.
pub fn powerlink_collector_read_v2(
    state: &mut Collector,
    services: &Services,
    buffer: &[u8],
    outcome: &mut u8,
    octet: &mut u8,
) -> u8
    ensures { CollectorReads services.now buffer.now result state.old state.new outcome.old outcome.new octet.old octet.new }
{
    match read(state, services, buffer) {
        Err(ReadError::Frame(e)) => refusal(e, octet),
        Err(ReadError::NotStatusResponse) => NOT_STATUS_RESPONSE,
        Err(ReadError::NotRegistered) => NOT_REGISTERED,
        Err(ReadError::BookFull) => BOOK_FULL,
        Ok(ReadOutcome::Known) => {
            *outcome = 0;
            0
        }
        Ok(ReadOutcome::Booked) => {
            *outcome = 1;
            0
        }
    }
}

// What every frame of the managing node to a registered node has to carry: EA in a PReq to it, EA and ER in an SoA with it as
// target.
pub fn powerlink_collector_flags(state: &Collector, id: u8, ea: &mut bool, er: &mut bool) -> u8
    ensures { CollectorFlags id result state.now ea.old ea.new er.old er.new }
{
    match flags(state, NodeId(id)) {
        None => NOT_REGISTERED,
        Some(f) => {
            *ea = f.ea;
            *er = f.er;
            0
        }
    }
}

// Writes the SoA that asks a registered node for its StatusResponse and tells it EA.
pub fn powerlink_collector_request(
    state: &Collector,
    id: u8,
    source_mac: &[u8; 6],
    nmt_state: u8,
    epl_version: u8,
    target: &mut [u8],
    written: &mut usize,
    octet: &mut u8,
) -> u8
    ensures { CollectorRequests id (request_fields source_mac.now epl_version) nmt_state result state.now target.old target.new written.old written.new octet.old octet.new }
{
    match NmtState::try_from(nmt_state) {
        Err(e) => {
            if !is_registered(state, NodeId(id)) {
                return NOT_REGISTERED;
            }
            unnamed(e, MIN_FRAME, target.len(), octet)
        }
        Ok(nmt_state) => {
            let fields = RequestFields {
                source_mac: MacAddress(*source_mac),
                nmt_state,
                epl_version: EPLVersion(epl_version),
            };
            match request(state, NodeId(id), fields, target) {
                Ok(n) => {
                    *written = n;
                    0
                }
                Err(RequestError::NotRegistered) => NOT_REGISTERED,
                Err(RequestError::Frame(e)) => e.number(),
            }
        }
    }
}

// Hands out the oldest entry of a node's book.
pub fn powerlink_collector_take(state: &mut Collector, id: u8, values: &mut [u64; 8]) -> u8
    ensures { CollectorTakes id result state.old state.new values.old values.new }
{
    match take(state, NodeId(id)) {
        Err(TakeError::NotRegistered) => NOT_REGISTERED,
        Err(TakeError::NothingBooked) => NOTHING_BOOKED,
        Ok(e) => {
            *values = entry_values(e);
            0
        }
    }
}
