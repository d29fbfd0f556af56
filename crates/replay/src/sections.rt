// The calls that write a section, 8 to 12. A is the payload.
use crate::record::PartName::A;
use crate::record::{flag, number, octet, part};
use crate::writers::Out;
use powerlink::sections::{
    powerlink_serialize_asnd_v2, powerlink_serialize_preq, powerlink_serialize_pres,
    powerlink_serialize_soa, powerlink_serialize_soc,
};
use services::ds301::DS301;

pub fn soc(s: &[u8], out: &mut Out) -> u8 {
    powerlink_serialize_soc(
        octet(s, 0),
        octet(s, 1),
        flag(s, 2),
        flag(s, 3),
        number(s, 4),
        number(s, 5),
        number(s, 6),
        out.target,
        &mut out.written,
    )
}

pub fn preq(s: &[u8], out: &mut Out) -> u8 {
    powerlink_serialize_preq(
        octet(s, 0),
        octet(s, 1),
        flag(s, 2),
        flag(s, 3),
        flag(s, 4),
        octet(s, 5),
        number(s, 6),
        part(s, A),
        out.target,
        &mut out.written,
    )
}

pub fn pres(s: &[u8], out: &mut Out) -> u8 {
    powerlink_serialize_pres(
        octet(s, 0),
        octet(s, 1),
        octet(s, 2),
        flag(s, 3),
        flag(s, 4),
        flag(s, 5),
        octet(s, 6),
        octet(s, 7),
        octet(s, 8),
        number(s, 9),
        part(s, A),
        out.target,
        &mut out.written,
        &mut out.octet,
    )
}

pub fn soa(s: &[u8], out: &mut Out) -> u8 {
    powerlink_serialize_soa(
        octet(s, 0),
        octet(s, 1),
        octet(s, 2),
        flag(s, 3),
        flag(s, 4),
        octet(s, 5),
        octet(s, 6),
        octet(s, 7),
        out.target,
        &mut out.written,
        &mut out.octet,
    )
}

pub fn asnd(s: &[u8], out: &mut Out) -> u8 {
    powerlink_serialize_asnd_v2(
        &DS301,
        octet(s, 0),
        octet(s, 1),
        octet(s, 2),
        part(s, A),
        out.target,
        &mut out.written,
        &mut out.octet,
    )
}
