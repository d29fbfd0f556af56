// The calls that write a whole frame, 18 to 22. A is the source's address; of PReq and ASnd B is the destination's and C the
// payload, of PRes B is the payload.
use crate::record::PartName::{A, B, C};
use crate::record::{array, flag, number, octet, part};
use crate::writers::Out;
use powerlink::frames::{
    powerlink_new_asnd_v2, powerlink_new_preq, powerlink_new_pres, powerlink_new_soa,
    powerlink_new_soc,
};
use services::ds301::DS301;

pub fn soc(s: &[u8], out: &mut Out) -> u8 {
    powerlink_new_soc(
        &array(s, A),
        flag(s, 0),
        flag(s, 1),
        number(s, 2),
        number(s, 3),
        number(s, 4),
        out.target,
        &mut out.written,
    )
}

pub fn preq(s: &[u8], out: &mut Out) -> u8 {
    powerlink_new_preq(
        &array(s, A),
        &array(s, B),
        octet(s, 0),
        flag(s, 1),
        flag(s, 2),
        flag(s, 3),
        octet(s, 4),
        part(s, C),
        out.target,
        &mut out.written,
    )
}

pub fn pres(s: &[u8], out: &mut Out) -> u8 {
    powerlink_new_pres(
        &array(s, A),
        octet(s, 0),
        octet(s, 1),
        flag(s, 2),
        flag(s, 3),
        flag(s, 4),
        octet(s, 5),
        octet(s, 6),
        octet(s, 7),
        part(s, B),
        out.target,
        &mut out.written,
        &mut out.octet,
    )
}

pub fn soa(s: &[u8], out: &mut Out) -> u8 {
    powerlink_new_soa(
        &array(s, A),
        octet(s, 0),
        flag(s, 1),
        flag(s, 2),
        octet(s, 3),
        octet(s, 4),
        octet(s, 5),
        out.target,
        &mut out.written,
        &mut out.octet,
    )
}

pub fn asnd(s: &[u8], out: &mut Out) -> u8 {
    powerlink_new_asnd_v2(
        &DS301,
        &array(s, A),
        &array(s, B),
        octet(s, 0),
        octet(s, 1),
        octet(s, 2),
        part(s, C),
        out.target,
        &mut out.written,
        &mut out.octet,
    )
}
