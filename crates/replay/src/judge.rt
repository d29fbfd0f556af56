// Whether what came of a call is what its record says.
ghost use Rattle.std.specs.Prelude.{OkIff};
ghost use Rattle.replay.specs.Agreement.{FirstOctet, FirstValue, SameOutput, SameOutcome, Agreement};

use crate::record::PartName::Output;
use crate::record::{CAUSE, OCTET, VALUES, fill, part, value};
use octets::slices::byte_at;
use std::fmt;

// Where something is not as the record says: of values and output the first that differs, or their number where there are
// fewer than the record has.
#[derive(Clone, Copy, Debug, PartialEq, Eq)]
pub enum Difference {
    Cause,
    Octet,
    Value(usize),
    Output(usize),
}

impl fmt::Display for Difference {
    fn fmt<W: fmt::Write>(&self, f: &mut fmt::Formatter<W>) -> fmt::Result {
        match *self {
            Difference::Cause => write!(f, "cause 0"),
            Difference::Octet => write!(f, "octet 0"),
            Difference::Value(at) => write!(f, "value {at}"),
            Difference::Output(at) => write!(f, "output {at}"),
        }
    }
}

// What came of a call.
#[derive(Clone, Copy)]
pub struct Outcome<'a> {
    pub cause: u8,
    pub octet: u8,
    pub values: &'a [u64],
    pub output: &'a [u8],
}

// The first place at which `came` is not `expected` with `b` behind it.
fn other_octet(came: &[u8], expected: &[u8], b: u8) -> Option<usize>
    ensures { FirstOctet came.now expected.now b result }
{
    came.iter().enumerate().position(|(i, octet)| *octet != expected.get(i).copied().unwrap_or(b))
}

// The first value that is not the record's. Two chains stay: one function for both would have to be given `value` as a closure.
fn other_value(s: &[u8], values: &[u64]) -> Option<usize>
    ensures { FirstValue s.now values.now result }
{
    values
        .iter()
        .enumerate()
        .position(|(i, v)| *v != value(s, i))
}

fn same_output(s: &[u8], came: &[u8]) -> Result<(), Difference>
    ensures { OkIff result (SameOutput s.now came.now) tt }
{
    let expected = part(s, Output);
    if came.len() < expected.len() {
        return Err(Difference::Output(came.len()));
    }
    match other_octet(came, expected, fill(s)) {
        Some(at) => Err(Difference::Output(at)),
        None => Ok(()),
    }
}

fn same_outcome(s: &[u8], values: &[u64], output: &[u8]) -> Result<(), Difference>
    ensures { OkIff result (SameOutcome s.now values.now output.now) tt }
{
    if values.len() < usize::from(byte_at(s, VALUES)) {
        return Err(Difference::Value(values.len()));
    }
    if let Some(at) = other_value(s, values) {
        return Err(Difference::Value(at));
    }
    same_output(s, output)
}

// The first difference, where there is one.
pub fn judge(s: &[u8], came: Outcome) -> Result<(), Difference>
    ensures { OkIff result (Agreement s.now came.entry.cause came.entry.octet came.entry.values.now came.entry.output.now) tt }
{
    if came.cause != byte_at(s, CAUSE) {
        return Err(Difference::Cause);
    }
    if came.octet != byte_at(s, OCTET) {
        return Err(Difference::Octet);
    }
    same_outcome(s, came.values, came.output)
}
