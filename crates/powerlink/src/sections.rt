// Writing sections: a frame of each kind without its Ethernet header.
ghost use Rattle.control.specs.SoC.{soc_section};
ghost use Rattle.poll.specs.PReq.{preq_section};
ghost use Rattle.powerlink.specs.Given.{soc_given, preq_flags_given, preq_given, pres_flags_given, pres_writing, soa_flags_given, soa_writing, asnd_writing};
ghost use Rattle.powerlink.specs.Writing.{WritesTo, WritesCoded};

use c_values::answers::{padded_len, told, unnamed, written_or};
use control::asnd::ASndFrame;
use control::soa::{SoAFlags, SoAFrame};
use control::soc::{SocFlags, SocFrame};
use poll::preq::{PReqFlags, PReqFrame};
use poll::pres::{PResFlags, PResFrame};
use section::MIN_SECTION;
use services::ServiceId;
use services::table::Services;
use types::common::{NetTime, RelativeTime};
use types::hal::PowerlinkError;
use types::mapping::PDOVersion;
use types::poll_flags::{PRFlag, RSFlag};
use types::requested_service::RequestedServiceId;
use types::states::NmtState;
use types::{EPLVersion, NodeId};

// Start of Cycle (EPSG DS 301, 4.6.1.1.2).
pub fn powerlink_serialize_soc(
    destination: u8,
    source: u8,
    mc: bool,
    ps: bool,
    seconds: u32,
    nanoseconds: u32,
    relative_time: u64,
    target: &mut [u8],
    written: &mut usize,
) -> u8
    ensures { WritesTo (soc_section (soc_given destination source mc ps seconds nanoseconds relative_time)) result target.old target.new written.old written.new }
{
    let frame = SocFrame {
        destination: NodeId(destination),
        source: NodeId(source),
        flags: SocFlags { mc, ps },
        net_time: NetTime {
            seconds,
            nanoseconds,
        },
        relative_time: RelativeTime(relative_time),
    };
    let answer = frame.serialize(target);
    written_or(answer, written)
}

// Poll Request (4.6.1.1.3). The payload size is the caller's, as powerlink-rs has it: a frame of any size can be made.
pub fn powerlink_serialize_preq(
    destination: u8,
    source: u8,
    ms: bool,
    ea: bool,
    rd: bool,
    pdo_version: u8,
    payload_size: u16,
    payload: &[u8],
    target: &mut [u8],
    written: &mut usize,
) -> u8
    ensures { WritesTo (preq_section (preq_given destination source (preq_flags_given ms ea rd) pdo_version payload_size) payload.now) result target.old target.new written.old written.new }
{
    let frame = PReqFrame {
        destination: NodeId(destination),
        source: NodeId(source),
        flags: PReqFlags { ms, ea, rd },
        pdo_version: PDOVersion(pdo_version),
        payload_size,
    };
    let answer = frame.serialize(payload, target);
    written_or(answer, written)
}

// Poll Response (4.6.1.1.4): 1, then 5.
pub fn powerlink_serialize_pres(
    destination: u8,
    source: u8,
    state: u8,
    ms: bool,
    en: bool,
    rd: bool,
    pr: u8,
    rs: u8,
    pdo_version: u8,
    payload_size: u16,
    payload: &[u8],
    target: &mut [u8],
    written: &mut usize,
    octet: &mut u8,
) -> u8
    ensures { WritesCoded (pres_writing destination source state (pres_flags_given ms en rd pr rs) pdo_version payload_size payload.now) result target.old target.new written.old written.new octet.old octet.new }
{
    match NmtState::try_from(state) {
        Err(e) => {
            let needed = padded_len(MIN_SECTION, poll::FIELDS_LEN + payload.len());
            unnamed(e, needed, target.len(), octet)
        }
        Ok(nmt_state) => {
            let frame = PResFrame {
                destination: NodeId(destination),
                source: NodeId(source),
                nmt_state,
                flags: PResFlags {
                    ms,
                    en,
                    rd,
                    pr: PRFlag::from(pr),
                    rs: RSFlag(rs),
                },
                pdo_version: PDOVersion(pdo_version),
                payload_size,
            };
            let answer = frame.serialize(payload, target);
            written_or(answer, written)
        }
    }
}

// Start of Asynchronous (4.6.1.1.5): 1, then 5, then 7.
pub fn powerlink_serialize_soa(
    destination: u8,
    source: u8,
    state: u8,
    ea: bool,
    er: bool,
    requested_service: u8,
    target_node: u8,
    epl_version: u8,
    target: &mut [u8],
    written: &mut usize,
    octet: &mut u8,
) -> u8
    ensures { WritesCoded (soa_writing destination source state (soa_flags_given ea er) requested_service target_node epl_version) result target.old target.new written.old written.new octet.old octet.new }
{
    match NmtState::try_from(state) {
        Err(e) => unnamed(e, MIN_SECTION, target.len(), octet),
        Ok(nmt_state) => match RequestedServiceId::try_from(requested_service) {
            Err(e) => unnamed(e, MIN_SECTION, target.len(), octet),
            Ok(req_service_id) => {
                let frame = SoAFrame {
                    destination: NodeId(destination),
                    source: NodeId(source),
                    nmt_state,
                    flags: SoAFlags { ea, er },
                    req_service_id,
                    target_node_id: NodeId(target_node),
                    epl_version: EPLVersion(epl_version),
                };
                let answer = frame.serialize(target);
                written_or(answer, written)
            }
        },
    }
}

// Asynchronous Send (4.6.1.1.6): 1, then 6.
pub fn powerlink_serialize_asnd_v2(
    services: &Services,
    destination: u8,
    source: u8,
    service: u8,
    payload: &[u8],
    target: &mut [u8],
    written: &mut usize,
    octet: &mut u8,
) -> u8
    ensures { WritesCoded (asnd_writing services.now destination source service payload.now) result target.old target.new written.old written.new octet.old octet.new }
{
    let frame = ASndFrame {
        destination: NodeId(destination),
        source: NodeId(source),
        service_id: ServiceId(service),
    };
    let answer = frame.serialize(services, payload, target);
    told(answer, written, octet)
}
