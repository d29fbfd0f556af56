// The calls that write.
use crate::judge::{Difference, Outcome, judge};
use crate::record::{fill, many, target_len};
use crate::{frames, parts, sections};

// The longest target: more than a frame takes whose payload has 65,536 octets.
pub const SPACE: usize = 65600;

// What a call may change: its target, how much of it is written, and the octet of a cause.
#[derive(Drop)]
pub struct Out<'a> {
    pub target: &'a mut [u8],
    pub written: usize,
    pub octet: u8,
}

impl<'a> Out<'a> {
    // As it is before the call: the target is the front of `space`, or all of it where the record wants more.
    fn before(s: &[u8], space: &'a mut [u8]) -> Out<'a> {
        let len = target_len(s).min(space.len());
        Out {
            target: &mut space[..len],
            written: many(s) as usize,
            octet: fill(s),
        }
    }
}

// Makes call `n`. A match stays: a record tells its call by number alone, and an enum of them would be made by this same match.
fn call(n: u8, s: &[u8], out: &mut Out) -> u8 {
    match n {
        8 => sections::soc(s, out),
        9 => sections::preq(s, out),
        10 => sections::pres(s, out),
        11 => sections::soa(s, out),
        12 => sections::asnd(s, out),
        13 => parts::eth_header(s, out),
        14 => parts::pl_header(s, out),
        15 => parts::entry(s, out),
        16 => parts::error_field(s, out),
        17 => parts::status(s, out),
        18 => frames::soc(s, out),
        19 => frames::preq(s, out),
        20 => frames::pres(s, out),
        21 => frames::soa(s, out),
        _ => frames::asnd(s, out),
    }
}

// Calls 8 to 22. The one value that comes out is `written`.
pub fn write(n: u8, s: &[u8]) -> Result<(), Difference> {
    let mut space = [fill(s); SPACE];
    let mut out = Out::before(s, &mut space);
    let cause = call(n, s, &mut out);
    judge(
        s,
        Outcome {
            cause,
            octet: out.octet,
            values: &[out.written as u64],
            output: out.target,
        },
    )
}
