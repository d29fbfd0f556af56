// The calls that write headers, entries and StatusResponses, 13 to 17. Of a StatusResponse B are the entries, 20 octets each.
use crate::record::PartName::{A, B};
use crate::record::{array, flag, number, octet, part};
use crate::writers::Out;
use powerlink::headers::{powerlink_serialize_eth_header, powerlink_serialize_pl_header};
use powerlink::status::{
    powerlink_serialize_entry, powerlink_serialize_error_field, powerlink_serialize_status,
};

pub fn eth_header(s: &[u8], out: &mut Out) -> u8 {
    powerlink_serialize_eth_header(
        &array(s, A),
        &array(s, B),
        number(s, 0),
        out.target,
        &mut out.written,
    )
}

pub fn pl_header(s: &[u8], out: &mut Out) -> u8 {
    powerlink_serialize_pl_header(
        octet(s, 0),
        octet(s, 1),
        octet(s, 2),
        out.target,
        &mut out.written,
        &mut out.octet,
    )
}

pub fn entry(s: &[u8], out: &mut Out) -> u8 {
    powerlink_serialize_entry(
        flag(s, 0),
        flag(s, 1),
        octet(s, 2),
        number(s, 3),
        number(s, 4),
        number(s, 5),
        number(s, 6),
        number(s, 7),
        out.target,
        &mut out.written,
    )
}

pub fn error_field(s: &[u8], out: &mut Out) -> u8 {
    powerlink_serialize_error_field(&array(s, A), out.target, &mut out.written)
}

pub fn status(s: &[u8], out: &mut Out) -> u8 {
    powerlink_serialize_status(
        flag(s, 0),
        flag(s, 1),
        octet(s, 2),
        octet(s, 3),
        octet(s, 4),
        &array(s, A),
        part(s, B),
        out.target,
        &mut out.written,
        &mut out.octet,
    )
}
