// Writing sections, exported.
ghost use Rattle.control.specs.SoC.{soc_section};
ghost use Rattle.poll.specs.PReq.{preq_section};
ghost use Rattle.powerlink.specs.Given.{soc_given, preq_flags_given, preq_given, pres_flags_given, pres_writing, soa_flags_given, soa_writing, asnd_writing};
ghost use Rattle.powerlink.specs.Writing.{WritesTo, WritesCoded};

use services::table::Services;

#[unsafe(no_mangle)]
pub extern "C" fn powerlink_serialize_soc(
    destination: u8,
    source: u8,
    mc: bool,
    ps: bool,
    seconds: u32,
    nanoseconds: u32,
    relative_time: u64,
    target: &mut [u8],
    written: &mut usize,
) -> u8
    ensures { WritesTo (soc_section (soc_given destination source mc ps seconds nanoseconds relative_time)) result target.old target.new written.old written.new }
{
    powerlink::sections::powerlink_serialize_soc(
        destination,
        source,
        mc,
        ps,
        seconds,
        nanoseconds,
        relative_time,
        target,
        written,
    )
}

#[unsafe(no_mangle)]
pub extern "C" fn powerlink_serialize_preq(
    destination: u8,
    source: u8,
    ms: bool,
    ea: bool,
    rd: bool,
    pdo_version: u8,
    payload_size: u16,
    payload: &[u8],
    target: &mut [u8],
    written: &mut usize,
) -> u8
    ensures { WritesTo (preq_section (preq_given destination source (preq_flags_given ms ea rd) pdo_version payload_size) payload.now) result target.old target.new written.old written.new }
{
    powerlink::sections::powerlink_serialize_preq(
        destination,
        source,
        ms,
        ea,
        rd,
        pdo_version,
        payload_size,
        payload,
        target,
        written,
    )
}

#[unsafe(no_mangle)]
pub extern "C" fn powerlink_serialize_pres(
    destination: u8,
    source: u8,
    state: u8,
    ms: bool,
    en: bool,
    rd: bool,
    pr: u8,
    rs: u8,
    pdo_version: u8,
    payload_size: u16,
    payload: &[u8],
    target: &mut [u8],
    written: &mut usize,
    octet: &mut u8,
) -> u8
    ensures { WritesCoded (pres_writing destination source state (pres_flags_given ms en rd pr rs) pdo_version payload_size payload.now) result target.old target.new written.old written.new octet.old octet.new }
{
    powerlink::sections::powerlink_serialize_pres(
        destination,
        source,
        state,
        ms,
        en,
        rd,
        pr,
        rs,
        pdo_version,
        payload_size,
        payload,
        target,
        written,
        octet,
    )
}

#[unsafe(no_mangle)]
pub extern "C" fn powerlink_serialize_soa(
    destination: u8,
    source: u8,
    state: u8,
    ea: bool,
    er: bool,
    requested_service: u8,
    target_node: u8,
    epl_version: u8,
    target: &mut [u8],
    written: &mut usize,
    octet: &mut u8,
) -> u8
    ensures { WritesCoded (soa_writing destination source state (soa_flags_given ea er) requested_service target_node epl_version) result target.old target.new written.old written.new octet.old octet.new }
{
    powerlink::sections::powerlink_serialize_soa(
        destination,
        source,
        state,
        ea,
        er,
        requested_service,
        target_node,
        epl_version,
        target,
        written,
        octet,
    )
}

#[unsafe(no_mangle)]
pub extern "C" fn powerlink_serialize_asnd_v2(
    services: &Services,
    destination: u8,
    source: u8,
    service: u8,
    payload: &[u8],
    target: &mut [u8],
    written: &mut usize,
    octet: &mut u8,
) -> u8
    ensures { WritesCoded (asnd_writing services.now destination source service payload.now) result target.old target.new written.old written.new octet.old octet.new }
{
    powerlink::sections::powerlink_serialize_asnd_v2(
        services,
        destination,
        source,
        service,
        payload,
        target,
        written,
        octet,
    )
}
