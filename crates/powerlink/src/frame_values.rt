// The numbers of each kind of frame, and of what stands in front of the entries of a StatusResponse, in the order in which
// include/powerlink.h names them: C reads an array by places.
ghost use Rattle.std.specs.Prelude.{◌≡◌};
ghost use Rattle.c_values.specs.Values.{soc_numbers, preq_numbers, pres_numbers, soa_numbers, asnd_numbers, status_numbers};

use codec::PayloadPlace;
use control::asnd::ASndFrame;
use control::soa::SoAFrame;
use control::soc::SocFrame;
use poll::preq::PReqFrame;
use poll::pres::PResFrame;
use status_response::fields::StatusFields;

pub(crate) fn soc_values(f: SocFrame, place: PayloadPlace) -> [u64; 16]
    ensures { result ≡ soc_numbers f place }
{
    [
        1,
        u64::from(f.destination.0),
        u64::from(f.source.0),
        place.start as u64,
        place.len as u64,
        u64::from(f.flags.mc),
        u64::from(f.flags.ps),
        u64::from(f.net_time.seconds),
        u64::from(f.net_time.nanoseconds),
        f.relative_time.0,
        0,
        0,
        0,
        0,
        0,
        0,
    ]
}

pub(crate) fn preq_values(f: PReqFrame, place: PayloadPlace) -> [u64; 16]
    ensures { result ≡ preq_numbers f place }
{
    [
        3,
        u64::from(f.destination.0),
        u64::from(f.source.0),
        place.start as u64,
        place.len as u64,
        u64::from(f.flags.ms),
        u64::from(f.flags.ea),
        u64::from(f.flags.rd),
        u64::from(f.pdo_version.0),
        u64::from(f.payload_size),
        0,
        0,
        0,
        0,
        0,
        0,
    ]
}

pub(crate) fn pres_values(f: PResFrame, place: PayloadPlace) -> [u64; 16]
    ensures { result ≡ pres_numbers f place }
{
    let state = f.nmt_state;
    let flags = f.flags;
    let pr = flags.pr;
    [
        4,
        u64::from(f.destination.0),
        u64::from(f.source.0),
        place.start as u64,
        place.len as u64,
        u64::from(f.flags.ms),
        u64::from(f.flags.en),
        u64::from(f.flags.rd),
        u64::from(f.pdo_version.0),
        u64::from(f.payload_size),
        u64::from(u8::from(state)),
        u64::from(u8::from(pr)),
        u64::from(f.flags.rs.0),
        0,
        0,
        0,
    ]
}

pub(crate) fn soa_values(f: SoAFrame, place: PayloadPlace) -> [u64; 16]
    ensures { result ≡ soa_numbers f place }
{
    let state = f.nmt_state;
    let service = f.req_service_id;
    [
        5,
        u64::from(f.destination.0),
        u64::from(f.source.0),
        place.start as u64,
        place.len as u64,
        u64::from(f.flags.ea),
        u64::from(f.flags.er),
        u64::from(u8::from(service)),
        u64::from(f.target_node_id.0),
        u64::from(f.epl_version.0),
        u64::from(u8::from(state)),
        0,
        0,
        0,
        0,
        0,
    ]
}

pub(crate) fn asnd_values(f: ASndFrame, place: PayloadPlace) -> [u64; 16]
    ensures { result ≡ asnd_numbers f place }
{
    [
        6,
        u64::from(f.destination.0),
        u64::from(f.source.0),
        place.start as u64,
        place.len as u64,
        u64::from(f.service_id.0),
        0,
        0,
        0,
        0,
        0,
        0,
        0,
        0,
        0,
        0,
    ]
}

pub(crate) fn status_values(f: StatusFields) -> [u64; 5]
    ensures { result ≡ status_numbers f }
{
    let pr = f.pr;
    let state = f.nmt_state;
    [
        u64::from(f.en_flag),
        u64::from(f.ec_flag),
        u64::from(u8::from(pr)),
        u64::from(f.rs.0),
        u64::from(u8::from(state)),
    ]
}
