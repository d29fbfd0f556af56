// The calls that read: what goes in is A. Each out-parameter is the fill before the call; what is no parameter of a call is
// judged as if the call had left it so.
use crate::judge::{Difference, Outcome, judge};
use crate::record::PartName::A;
use crate::record::{fill, many, number, part};
use powerlink::headers::{powerlink_deserialize_eth_header, powerlink_deserialize_pl_header};
use powerlink::reading::powerlink_deserialize_frame_v2;
use powerlink::status::{
    powerlink_deserialize_entry, powerlink_deserialize_error_field, powerlink_deserialize_status,
    powerlink_entry_step,
};
use services::ds301::DS301;
use types::basic::{EthernetHeader, MacAddress};

fn frame(s: &[u8]) -> Result<(), Difference> {
    let mut octet = fill(s);
    let mut values = [many(s); 16];
    let cause = powerlink_deserialize_frame_v2(&DS301, part(s, A), &mut values, &mut octet);
    judge(
        s,
        Outcome {
            cause,
            octet,
            values: &values,
            output: &[],
        },
    )
}

// The octets that come out are those of the header, as a frame has them.
fn eth_header(s: &[u8]) -> Result<(), Difference> {
    let octet = fill(s);
    let mut destination = [octet; 6];
    let mut source = [octet; 6];
    let mut ether_type = u16::from(octet) * 0x101;
    let cause = powerlink_deserialize_eth_header(
        part(s, A),
        &mut destination,
        &mut source,
        &mut ether_type,
    );
    let header = EthernetHeader {
        destination_mac: MacAddress(destination),
        source_mac: MacAddress(source),
        ether_type,
    };
    judge(
        s,
        Outcome {
            cause,
            octet,
            values: &[many(s)],
            output: &header.to_bytes(),
        },
    )
}

// It and `frame` differ in the call and in how many numbers it gives: one for both would take the call as a closure and be no shorter.
fn pl_header(s: &[u8]) -> Result<(), Difference> {
    let mut octet = fill(s);
    let mut values = [many(s); 3];
    let cause = powerlink_deserialize_pl_header(part(s, A), &mut values, &mut octet);
    judge(
        s,
        Outcome {
            cause,
            octet,
            values: &values,
            output: &[],
        },
    )
}

fn status(s: &[u8]) -> Result<(), Difference> {
    let mut octet = fill(s);
    let mut field = [octet; 8];
    let mut values = [many(s); 5];
    let cause = powerlink_deserialize_status(part(s, A), &mut values, &mut field, &mut octet);
    judge(
        s,
        Outcome {
            cause,
            octet,
            values: &values,
            output: &field,
        },
    )
}

fn error_field(s: &[u8]) -> Result<(), Difference> {
    let octet = fill(s);
    let mut field = [octet; 8];
    let cause = powerlink_deserialize_error_field(part(s, A), &mut field);
    judge(
        s,
        Outcome {
            cause,
            octet,
            values: &[many(s)],
            output: &field,
        },
    )
}

fn entry(s: &[u8]) -> Result<(), Difference> {
    let mut values = [many(s); 8];
    let cause = powerlink_deserialize_entry(part(s, A), &mut values);
    judge(
        s,
        Outcome {
            cause,
            octet: fill(s),
            values: &values,
            output: &[],
        },
    )
}

// The octets that come out are those of `next`.
fn entry_step(s: &[u8]) -> Result<(), Difference> {
    let mut values = [many(s); 8];
    let mut next = many(s) as usize;
    let at: u64 = number(s, 0);
    let cause = powerlink_entry_step(part(s, A), at as usize, &mut values, &mut next);
    judge(
        s,
        Outcome {
            cause,
            octet: fill(s),
            values: &values,
            output: &(next as u64).to_le_bytes(),
        },
    )
}

// Calls 1 to 7. A match stays, as that of the writers does.
pub fn read(n: u8, s: &[u8]) -> Result<(), Difference> {
    match n {
        1 => frame(s),
        2 => eth_header(s),
        3 => pl_header(s),
        4 => status(s),
        5 => error_field(s),
        6 => entry(s),
        _ => entry_step(s),
    }
}
