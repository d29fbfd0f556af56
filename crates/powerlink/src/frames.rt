// Writing whole frames, as each kind's `new` makes them.
ghost use Rattle.std.specs.Prelude.{◌++◌};
ghost use Rattle.types.specs.Header.{eth_bytes};
ghost use Rattle.section.specs.Write.{padded, Writes};
ghost use Rattle.powerlink.specs.Given.{time, soc_flags_given, new_soc_frame, preq_flags_given, new_preq_frame, pres_flags_given, new_pres_writing, soa_flags_given, new_soa_writing, new_asnd_writing};
ghost use Rattle.powerlink.specs.Writing.{WritesTo, WritesCoded};

use c_values::answers::{padded_len, told, unnamed, written_or};
use control::asnd::ASndFrame;
use control::soa::{SoAFlags, SoAFrame};
use control::soc::{SocFlags, SocFrame};
use poll::preq::{PReqFlags, PReqFrame};
use poll::pres::{PResFlags, PResFrame, STATE_AT};
use section::{MIN_FRAME, write_behind};
use services::ServiceId;
use services::table::Services;
use types::basic::{EthernetHeader, MacAddress};
use types::common::{NetTime, RelativeTime};
use types::hal::PowerlinkError;
use types::mapping::PDOVersion;
use types::poll_flags::{PRFlag, RSFlag};
use types::requested_service::RequestedServiceId;
use types::states::NmtState;
use types::{EPLVersion, NodeId};

// Writes an Ethernet header and behind it a section of these fields and this payload.
fn put_frame(
    eth_header: EthernetHeader,
    fields: &[u8],
    payload: &[u8],
    target: &mut [u8],
) -> Result<usize, PowerlinkError>
    ensures { Writes (eth_bytes eth_header ++ padded (fields.now ++ payload.now)) result target.old target.new }
{
    write_behind(&eth_header.to_bytes(), fields, payload, target)
}

// SoC goes from the managing node to all, by its multicast address.
pub fn powerlink_new_soc(
    source_mac: &[u8; 6],
    mc: bool,
    ps: bool,
    seconds: u32,
    nanoseconds: u32,
    relative_time: u64,
    target: &mut [u8],
    written: &mut usize,
) -> u8
    ensures { WritesTo (new_soc_frame source_mac.now (soc_flags_given mc ps) (time seconds nanoseconds) relative_time) result target.old target.new written.old written.new }
{
    let new = SocFrame::new(
        MacAddress(*source_mac),
        SocFlags { mc, ps },
        NetTime {
            seconds,
            nanoseconds,
        },
        RelativeTime(relative_time),
    );
    let frame = new.frame;
    let answer = put_frame(new.eth_header, &frame.to_bytes(), b"", target);
    written_or(answer, written)
}

// PReq goes from the managing node to one node, whose address the caller knows.
#[tactic(auto, unfolding(frame::specs::Write::frame_bytes, poll::specs::PReq::preq_section))]
pub fn powerlink_new_preq(
    source_mac: &[u8; 6],
    dest_mac: &[u8; 6],
    target_node: u8,
    ms: bool,
    ea: bool,
    rd: bool,
    pdo_version: u8,
    payload: &[u8],
    target: &mut [u8],
    written: &mut usize,
) -> u8
    ensures { WritesTo (new_preq_frame source_mac.now dest_mac.now target_node (preq_flags_given ms ea rd) pdo_version payload.now) result target.old target.new written.old written.new }
{
    let new = PReqFrame::new(
        MacAddress(*source_mac),
        MacAddress(*dest_mac),
        NodeId(target_node),
        PReqFlags { ms, ea, rd },
        PDOVersion(pdo_version),
        payload,
    );
    let frame = new.frame;
    let answer = put_frame(new.eth_header, &frame.to_bytes(), payload, target);
    written_or(answer, written)
}

// PRes goes from a node to all, by its multicast address: 1, then 5.
pub fn powerlink_new_pres(
    source_mac: &[u8; 6],
    source: u8,
    state: u8,
    ms: bool,
    en: bool,
    rd: bool,
    pr: u8,
    rs: u8,
    pdo_version: u8,
    payload: &[u8],
    target: &mut [u8],
    written: &mut usize,
    octet: &mut u8,
) -> u8
    ensures { WritesCoded (new_pres_writing source_mac.now source state (pres_flags_given ms en rd pr rs) pdo_version payload.now) result target.old target.new written.old written.new octet.old octet.new }
{
    match NmtState::try_from(state) {
        Err(e) => {
            let needed = padded_len(MIN_FRAME, poll::PAYLOAD_AT + payload.len());
            unnamed(e, needed, target.len(), octet)
        }
        Ok(nmt_state) => {
            let new = PResFrame::new(
                MacAddress(*source_mac),
                NodeId(source),
                nmt_state,
                PResFlags {
                    ms,
                    en,
                    rd,
                    pr: PRFlag::from(pr),
                    rs: RSFlag(rs),
                },
                PDOVersion(pdo_version),
                payload,
            );
            let frame = new.frame;
            // The state's octet is the one that was given: the compiler then makes no table of states.
            let mut fields = frame.to_bytes();
            fields[STATE_AT] = state;
            let answer = put_frame(new.eth_header, &fields, payload, target);
            written_or(answer, written)
        }
    }
}

// SoA goes from the managing node to all, by its multicast address: 1, then 5, then 7.
pub fn powerlink_new_soa(
    source_mac: &[u8; 6],
    state: u8,
    ea: bool,
    er: bool,
    requested_service: u8,
    target_node: u8,
    epl_version: u8,
    target: &mut [u8],
    written: &mut usize,
    octet: &mut u8,
) -> u8
    ensures { WritesCoded (new_soa_writing source_mac.now state (soa_flags_given ea er) requested_service target_node epl_version) result target.old target.new written.old written.new octet.old octet.new }
{
    match NmtState::try_from(state) {
        Err(e) => unnamed(e, MIN_FRAME, target.len(), octet),
        Ok(nmt_state) => match RequestedServiceId::try_from(requested_service) {
            Err(e) => unnamed(e, MIN_FRAME, target.len(), octet),
            Ok(service) => {
                let new = SoAFrame::new(
                    MacAddress(*source_mac),
                    nmt_state,
                    SoAFlags { ea, er },
                    service,
                    NodeId(target_node),
                    EPLVersion(epl_version),
                );
                let frame = new.frame;
                let answer = put_frame(new.eth_header, &frame.to_bytes(), b"", target);
                written_or(answer, written)
            }
        },
    }
}

// ASnd goes from any node to any, so that both addresses and both IDs are the caller's: 1, then 6, where the table does not
// hold its service.
#[tactic(auto, unfolding(frame::specs::Write::frame_bytes))]
pub fn powerlink_new_asnd_v2(
    services: &Services,
    source_mac: &[u8; 6],
    dest_mac: &[u8; 6],
    target_node: u8,
    source: u8,
    service: u8,
    payload: &[u8],
    target: &mut [u8],
    written: &mut usize,
    octet: &mut u8,
) -> u8
    ensures { WritesCoded (new_asnd_writing services.now source_mac.now dest_mac.now target_node source service payload.now) result target.old target.new written.old written.new octet.old octet.new }
{
    let new = ASndFrame::new(
        MacAddress(*source_mac),
        MacAddress(*dest_mac),
        NodeId(target_node),
        NodeId(source),
        ServiceId(service),
    );
    let eth_header = new.eth_header;
    let frame = new.frame;
    let answer = frame.serialize_behind(services, &eth_header.to_bytes(), payload, target);
    told(answer, written, octet)
}
