// Octets and answers on standard output.
use std::{fmt, io};
use types::hal::PowerlinkError;

// Every octet of a target before the call.
pub const FILL: u8 = 0xFC;

// Octets as they are printed, a space in front of each.
#[derive(Clone, Copy)]
pub struct Octets<'a>(pub &'a [u8]);

impl fmt::Display for Octets<'_> {
    fn fmt<W: fmt::Write>(&self, f: &mut fmt::Formatter<W>) -> fmt::Result {
        for b in self.0 {
            write!(f, " {b:02x}")?;
        }
        Ok(())
    }
}

// A line: 01's number or the length, and what the target holds after the call.
pub fn written(
    rt: &impl Print,
    answer: Result<usize, PowerlinkError>,
    target: &[u8],
) -> io::Result<()> {
    let n = answer.unwrap_or_else(|e| usize::from(e.number()));
    println!(rt; " {n}{}", Octets(target))
}
