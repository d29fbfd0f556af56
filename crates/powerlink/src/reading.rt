// Reading a frame. The tests and the fields are codec's; what each kind reads as is told in numbers.
ghost use Rattle.codec.specs.ASnd.{read_asnd};
ghost use Rattle.codec.specs.Frame.{by_kind};
ghost use Rattle.codec.specs.PReq.{read_preq};
ghost use Rattle.codec.specs.PRes.{read_pres};
ghost use Rattle.codec.specs.SoA.{read_soa};
ghost use Rattle.codec.specs.SoC.{read_soc};
ghost use Rattle.powerlink.specs.Reading.{FrameRead, SectionRead};

use crate::frame_values::{asnd_values, preq_values, pres_values, soa_values, soc_values};
use c_values::answers::refusal;
use codec::{kind_of, payload_place};
use control::soa;
use frame::PowerlinkFrame;
use octets::slices::{byte_at, tail};
use poll::pres;
use services::table::Services;
use types::basic::ETH_LEN;
use types::hal::PowerlinkError;
use types::message_type::MessageType;

// Reads a frame, from its Ethernet header on; an ASnd is read where the table holds its service.
#[tactic(auto, unfolding(codec::specs::Frame::read_frame))]
pub fn powerlink_deserialize_frame_v2(
    services: &Services,
    buffer: &[u8],
    values: &mut [u64; 16],
    octet: &mut u8,
) -> u8
    ensures { FrameRead services.now buffer.now result values.old values.new octet.old octet.new }
{
    match kind_of(buffer) {
        Err(e) => refusal(e, octet),
        Ok(kind) => read_kind(services, kind, tail(buffer, ETH_LEN), values, octet),
    }
}

// The section `s` of a frame of a kind. It is matched, as in `codec`: no table of functions says that plainer.
// The answers from here on are the number that C gets: a Result<[u64; 16], PowerlinkError> was tried and proves, but is taken apart again
// at once, and SoC and ASnd are read 8 to 16 % slower, since all kinds then share one store.
fn read_kind(
    services: &Services,
    kind: MessageType,
    s: &[u8],
    values: &mut [u64; 16],
    octet: &mut u8,
) -> u8
    ensures { SectionRead (by_kind services.now kind s.now) s.now result values.old values.new octet.old octet.new }
{
    match kind {
        MessageType::SoC => read_soc(s, values, octet),
        MessageType::PReq => read_preq(s, values, octet),
        MessageType::PRes => read_pres(s, values, octet),
        MessageType::SoA => read_soa(s, values, octet),
        MessageType::ASnd => read_asnd(services, s, values, octet),
    }
}

// The five readers are of one shape, and stay so for that speed: what `judge` hands on is of another type in each, and one function behind
// them all is the one store.
fn read_soc(s: &[u8], values: &mut [u64; 16], octet: &mut u8) -> u8
    ensures { SectionRead (read_soc s.now) s.now result values.old values.new octet.old octet.new }
{
    match codec::soc::judge(s) {
        Err(e) => refusal(e, octet),
        Ok((net_time, relative_time)) => {
            let f = codec::soc::fields(s, net_time, relative_time);
            *values = soc_values(f, payload_place(PowerlinkFrame::Soc(f), s));
            0
        }
    }
}

fn read_preq(s: &[u8], values: &mut [u64; 16], octet: &mut u8) -> u8
    ensures { SectionRead (read_preq s.now) s.now result values.old values.new octet.old octet.new }
{
    match codec::preq::judge(s) {
        Err(e) => refusal(e, octet),
        Ok(size) => {
            let f = codec::preq::fields(s, size);
            *values = preq_values(f, payload_place(PowerlinkFrame::PReq(f), s));
            0
        }
    }
}

fn read_pres(s: &[u8], values: &mut [u64; 16], octet: &mut u8) -> u8
    ensures { SectionRead (read_pres s.now) s.now result values.old values.new octet.old octet.new }
{
    match codec::pres::judge(s) {
        Err(e) => refusal(e, octet),
        Ok((state, size)) => {
            let f = codec::pres::fields(s, state, size);
            let mut numbers = pres_values(f, payload_place(PowerlinkFrame::PRes(f), s));
            // The state's number is its octet: the compiler then makes no table of states.
            numbers[10] = byte_at(s, pres::STATE_AT) as u64;
            *values = numbers;
            0
        }
    }
}

fn read_soa(s: &[u8], values: &mut [u64; 16], octet: &mut u8) -> u8
    ensures { SectionRead (read_soa s.now) s.now result values.old values.new octet.old octet.new }
{
    match codec::soa::judge(s) {
        Err(e) => refusal(e, octet),
        Ok((state, service)) => {
            let f = codec::soa::fields(s, state, service);
            let mut numbers = soa_values(f, payload_place(PowerlinkFrame::SoA(f), s));
            // And so is the service's.
            numbers[7] = byte_at(s, soa::SERVICE_AT) as u64;
            numbers[10] = byte_at(s, soa::STATE_AT) as u64;
            *values = numbers;
            0
        }
    }
}

fn read_asnd(services: &Services, s: &[u8], values: &mut [u64; 16], octet: &mut u8) -> u8
    ensures { SectionRead (read_asnd services.now s.now) s.now result values.old values.new octet.old octet.new }
{
    match codec::asnd::judge(services, s) {
        Err(e) => refusal(e, octet),
        Ok(()) => {
            let f = codec::asnd::fields(s);
            *values = asnd_values(f, payload_place(PowerlinkFrame::ASnd(f), s));
            0
        }
    }
}
