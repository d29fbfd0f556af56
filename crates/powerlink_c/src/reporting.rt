// The calls of a reporter, exported.
ghost use Rattle.powerlink.specs.Given.{time};
ghost use Rattle.powerlink.specs.Reporting.{ReporterMakes, ReporterRaises, ReporterAnswers, ReporterEn, ReporterReads, answer_fields};

use reporter::Reporter;
use services::table::Services;

#[unsafe(no_mangle)]
pub extern "C" fn powerlink_reporter_new_v2(state: &mut Reporter, id: u8) -> u8
    ensures { ReporterMakes id result state.old state.new }
{
    powerlink::reporting::powerlink_reporter_new_v2(state, id)
}

#[unsafe(no_mangle)]
pub extern "C" fn powerlink_reporter_raise(
    state: &mut Reporter,
    status_entry: bool,
    send_to_queue: bool,
    mode: u8,
    profile: u16,
    code: u16,
    seconds: u32,
    nanoseconds: u32,
    information: u64,
) -> u8
    ensures { ReporterRaises status_entry send_to_queue mode profile code (time seconds nanoseconds) information result state.old state.new }
{
    powerlink::reporting::powerlink_reporter_raise(
        state,
        status_entry,
        send_to_queue,
        mode,
        profile,
        code,
        seconds,
        nanoseconds,
        information,
    )
}

#[unsafe(no_mangle)]
pub extern "C" fn powerlink_reporter_answer_v2(
    state: &mut Reporter,
    services: &Services,
    source_mac: &[u8; 6],
    dest_mac: &[u8; 6],
    ec: bool,
    pr: u8,
    rs: u8,
    nmt_state: u8,
    field: &[u8; 8],
    target: &mut [u8],
    written: &mut usize,
    octet: &mut u8,
) -> u8
    ensures { ReporterAnswers services.now (answer_fields source_mac.now dest_mac.now ec pr rs field.now) nmt_state result state.old state.new target.old target.new written.old written.new octet.old octet.new }
{
    powerlink::reporting::powerlink_reporter_answer_v2(
        state, services, source_mac, dest_mac, ec, pr, rs, nmt_state, field, target, written, octet,
    )
}

#[unsafe(no_mangle)]
pub extern "C" fn powerlink_reporter_en(state: &Reporter, en: &mut bool) -> u8
    ensures { ReporterEn result state.now en.new }
{
    powerlink::reporting::powerlink_reporter_en(state, en)
}

#[unsafe(no_mangle)]
pub extern "C" fn powerlink_reporter_read_v2(
    state: &mut Reporter,
    services: &Services,
    buffer: &[u8],
    outcome: &mut u8,
    octet: &mut u8,
) -> u8
    ensures { ReporterReads services.now buffer.now result state.old state.new outcome.old outcome.new octet.old octet.new }
{
    powerlink::reporting::powerlink_reporter_read_v2(state, services, buffer, outcome, octet)
}
