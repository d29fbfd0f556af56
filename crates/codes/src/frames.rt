// What no C function does and no other program runs: a frame asked for as each kind, its header and its payload as read, and its
// section written again.
use crate::print::{FILL, Octets, written};
use codec::{deserialize_frame, payload};
use frame::PowerlinkFrame;
use section::MIN_SECTION;
use services::ds301::DS301;
use std::io;
use types::basic::EthernetHeader;

// A section of the smallest size, and some octets behind it.
const SPACE: usize = MIN_SECTION + 2;

// The five kinds, then a message type that is none, and another EtherType.
const FRAMES: [&[u8]; 7] = [
    b"\x01\x11\x1E\x00\x00\x01\x02\x00\x00\x00\x00\xF0\x88\xAB\x01\xFF\xF0\x00\x40\x00\x01\x00\x00\x00\x02\x00\x00\x00\x03\x00\x00\x00\x00\x00\x00\x00",
    b"\x02\x00\x00\x00\x00\x07\x02\x00\x00\x00\x00\xF0\x88\xAB\x03\x07\xF0\x00\x05\x00\x10\x00\x03\x00\xA1\xA2\xA3\x00\x00\x00\x00\x00\x00\x00\x00\x00",
    b"\x01\x11\x1E\x00\x00\x02\x02\x00\x00\x00\x00\x07\x88\xAB\x04\xFF\x07\xFD\x11\x2B\x10\x00\x02\x00\xB1\xB2\x00\x00\x00\x00\x00\x00\x00\x00\x00\x00",
    b"\xFF\xFF\xFF\xFF\xFF\xFF\x02\x00\x00\x00\x00\xF0\x88\xAB\x05\xFF\xF0\xFD\x04\x00\x02\x07\x20\x00\x00\x00\x00\x00\x00\x00\x00\x00\x00\x00\x00\x00",
    b"\x01\x11\x1E\x00\x00\x04\x02\x00\x00\x00\x00\x07\x88\xAB\x06\xFF\x07\x02\xC1\xC2\x00\x00\x00\x00\x00\x00\x00\x00\x00\x00\x00\x00\x00\x00\x00\x00",
    b"\xFE\xFF\xFF\xFF\xFF\xFF\x02\x00\x00\x00\x00\xF0\x88\xAB\x82\xFF\xF0\x00\x00\x00\x00\x00\x00\x00\x00\x00\x00\x00\x00\x00\x00\x00\x00\x00\x00\x00",
    b"\x01\x00\x5E\x00\x00\x01\x02\x00\x00\x00\x00\xF0\x08\x00\x01\xFF\xF0\x00\x00\x00\x00\x00\x00\x00\x00\x00\x00\x00\x00\x00\x00\x00\x00\x00\x00\x00",
];

// Whether it is a SoC, PReq, PRes, SoA, ASnd.
fn kinds(rt: &impl Print, f: PowerlinkFrame) -> io::Result<()> {
    let kinds = [
        f.into_soc().is_ok(),
        f.into_preq().is_ok(),
        f.into_pres().is_ok(),
        f.into_soa().is_ok(),
        f.into_asnd().is_ok(),
    ];
    for is_kind in kinds {
        print!(rt; " {}", u8::from(is_kind))?;
    }
    Ok(())
}

// The section that was read, written again.
fn again(rt: &impl Print, f: PowerlinkFrame, payload: &[u8]) -> io::Result<()> {
    let mut target = [FILL; SPACE];
    let answer = f.serialize(&DS301, payload, &mut target);
    written(rt, answer, &target)
}

// The header, whether its EtherType is POWERLINK's and its destination a group's or all stations'.
fn header(rt: &impl Print, h: EthernetHeader) -> io::Result<()> {
    let octets = h.to_bytes();
    let is_powerlink = u8::from(h.is_powerlink());
    let is_multicast = u8::from(h.destination_mac.is_multicast());
    let is_broadcast = u8::from(h.destination_mac.is_broadcast());
    print!(rt;
        "{} {is_powerlink} {is_multicast} {is_broadcast}",
        Octets(&octets)
    )
}

// A line for what was read: the header; of a frame, its kind and the payload, or else 01's number and the octet with it, or 0. Then a
// line for a frame's section.
fn frame(rt: &impl Print, bytes: &[u8]) -> io::Result<()> {
    match deserialize_frame(&DS301, bytes) {
        Ok(read) => {
            let data = payload(read.payload_place, bytes);
            header(rt, read.ethernet_header())?;
            kinds(rt, read.frame)?;
            println!(rt; "{}", Octets(data))?;
            again(rt, read.frame, data)
        }
        Err(refused) => {
            let e = refused.error;
            header(rt, refused.eth_header)?;
            println!(rt; " {} {}", e.number(), e.byte().unwrap_or(0))
        }
    }
}

pub fn all(rt: &impl Print) -> io::Result<()> {
    for bytes in FRAMES {
        frame(rt, bytes)?;
    }
    Ok(())
}
