// Writing whole frames, exported.
ghost use Rattle.powerlink.specs.Given.{time, soc_flags_given, new_soc_frame, preq_flags_given, new_preq_frame, pres_flags_given, new_pres_writing, soa_flags_given, new_soa_writing, new_asnd_writing};
ghost use Rattle.powerlink.specs.Writing.{WritesTo, WritesCoded};

use services::table::Services;

#[unsafe(no_mangle)]
pub extern "C" fn powerlink_new_soc(
    source_mac: &[u8; 6],
    mc: bool,
    ps: bool,
    seconds: u32,
    nanoseconds: u32,
    relative_time: u64,
    target: &mut [u8],
    written: &mut usize,
) -> u8
    ensures { WritesTo (new_soc_frame source_mac.now (soc_flags_given mc ps) (time seconds nanoseconds) relative_time) result target.old target.new written.old written.new }
{
    powerlink::frames::powerlink_new_soc(
        source_mac,
        mc,
        ps,
        seconds,
        nanoseconds,
        relative_time,
        target,
        written,
    )
}

#[unsafe(no_mangle)]
pub extern "C" fn powerlink_new_preq(
    source_mac: &[u8; 6],
    dest_mac: &[u8; 6],
    target_node: u8,
    ms: bool,
    ea: bool,
    rd: bool,
    pdo_version: u8,
    payload: &[u8],
    target: &mut [u8],
    written: &mut usize,
) -> u8
    ensures { WritesTo (new_preq_frame source_mac.now dest_mac.now target_node (preq_flags_given ms ea rd) pdo_version payload.now) result target.old target.new written.old written.new }
{
    powerlink::frames::powerlink_new_preq(
        source_mac,
        dest_mac,
        target_node,
        ms,
        ea,
        rd,
        pdo_version,
        payload,
        target,
        written,
    )
}

#[unsafe(no_mangle)]
pub extern "C" fn powerlink_new_pres(
    source_mac: &[u8; 6],
    source: u8,
    state: u8,
    ms: bool,
    en: bool,
    rd: bool,
    pr: u8,
    rs: u8,
    pdo_version: u8,
    payload: &[u8],
    target: &mut [u8],
    written: &mut usize,
    octet: &mut u8,
) -> u8
    ensures { WritesCoded (new_pres_writing source_mac.now source state (pres_flags_given ms en rd pr rs) pdo_version payload.now) result target.old target.new written.old written.new octet.old octet.new }
{
    powerlink::frames::powerlink_new_pres(
        source_mac,
        source,
        state,
        ms,
        en,
        rd,
        pr,
        rs,
        pdo_version,
        payload,
        target,
        written,
        octet,
    )
}

#[unsafe(no_mangle)]
pub extern "C" fn powerlink_new_soa(
    source_mac: &[u8; 6],
    state: u8,
    ea: bool,
    er: bool,
    requested_service: u8,
    target_node: u8,
    epl_version: u8,
    target: &mut [u8],
    written: &mut usize,
    octet: &mut u8,
) -> u8
    ensures { WritesCoded (new_soa_writing source_mac.now state (soa_flags_given ea er) requested_service target_node epl_version) result target.old target.new written.old written.new octet.old octet.new }
{
    powerlink::frames::powerlink_new_soa(
        source_mac,
        state,
        ea,
        er,
        requested_service,
        target_node,
        epl_version,
        target,
        written,
        octet,
    )
}

#[unsafe(no_mangle)]
pub extern "C" fn powerlink_new_asnd_v2(
    services: &Services,
    source_mac: &[u8; 6],
    dest_mac: &[u8; 6],
    target_node: u8,
    source: u8,
    service: u8,
    payload: &[u8],
    target: &mut [u8],
    written: &mut usize,
    octet: &mut u8,
) -> u8
    ensures { WritesCoded (new_asnd_writing services.now source_mac.now dest_mac.now target_node source service payload.now) result target.old target.new written.old written.new octet.old octet.new }
{
    powerlink::frames::powerlink_new_asnd_v2(
        services,
        source_mac,
        dest_mac,
        target_node,
        source,
        service,
        payload,
        target,
        written,
        octet,
    )
}
