// The calls of a collector, exported.
ghost use Rattle.powerlink.specs.Collecting.{CollectorMakes, CollectorRegisters, CollectorReads, CollectorFlags, CollectorRequests, CollectorTakes, request_fields};

use collector::Collector;
use services::table::Services;

#[unsafe(no_mangle)]
pub extern "C" fn powerlink_collector_new_v2(state: &mut Collector) -> u8
    ensures { CollectorMakes result state.new }
{
    powerlink::collecting::powerlink_collector_new_v2(state)
}

#[unsafe(no_mangle)]
pub extern "C" fn powerlink_collector_register(state: &mut Collector, id: u8) -> u8
    ensures { CollectorRegisters id result state.old state.new }
{
    powerlink::collecting::powerlink_collector_register(state, id)
}

#[unsafe(no_mangle)]
pub extern "C" fn powerlink_collector_read_v2(
    state: &mut Collector,
    services: &Services,
    buffer: &[u8],
    outcome: &mut u8,
    octet: &mut u8,
) -> u8
    ensures { CollectorReads services.now buffer.now result state.old state.new outcome.old outcome.new octet.old octet.new }
{
    powerlink::collecting::powerlink_collector_read_v2(state, services, buffer, outcome, octet)
}

#[unsafe(no_mangle)]
pub extern "C" fn powerlink_collector_flags(
    state: &Collector,
    id: u8,
    ea: &mut bool,
    er: &mut bool,
) -> u8
    ensures { CollectorFlags id result state.now ea.old ea.new er.old er.new }
{
    powerlink::collecting::powerlink_collector_flags(state, id, ea, er)
}

#[unsafe(no_mangle)]
pub extern "C" fn powerlink_collector_request(
    state: &Collector,
    id: u8,
    source_mac: &[u8; 6],
    nmt_state: u8,
    epl_version: u8,
    target: &mut [u8],
    written: &mut usize,
    octet: &mut u8,
) -> u8
    ensures { CollectorRequests id (request_fields source_mac.now epl_version) nmt_state result state.now target.old target.new written.old written.new octet.old octet.new }
{
    powerlink::collecting::powerlink_collector_request(
        state,
        id,
        source_mac,
        nmt_state,
        epl_version,
        target,
        written,
        octet,
    )
}

#[unsafe(no_mangle)]
pub extern "C" fn powerlink_collector_take(
    state: &mut Collector,
    id: u8,
    values: &mut [u64; 8],
) -> u8
    ensures { CollectorTakes id result state.old state.new values.old values.new }
{
    powerlink::collecting::powerlink_collector_take(state, id, values)
}
