// Replays a file of records on standard input: cases with the answers of powerlink-rs, or with those that 01 gives, as
// tests/compare/calls/sample.rs lays them out. Each case's call is made, of the function of `powerlink` that `powerlink_c` exports to C, and all
// that comes of it is compared. The last line says how many cases there are and how many differ, or where the file is
// refused. That the records have the shape of their calls is looked at by tests/replay/run.sh.
#![tactic(auto)]

mod frames;
mod judge;
mod parts;
mod readers;
mod record;
mod sections;
mod writers;

use judge::Difference;
use octets::little_endian::get_le;
use octets::slices::{byte_at, front, tail};
use record::{CALL, record_len, target_len};
use std::fmt;
use std::io::{Input, Read};
use writers::SPACE;

// The longest file.
const FILE: usize = 2097152;

// Octets in front of the first record: the mark and the number of records.
const HEAD: usize = 8;

const PLC2: u32 = 0x3243_4C50;

// Differences that are shown.
const SHOWN: u64 = 20;

// The calls are numbers from 1 on. The first of them read, and the others write.
const READERS: u8 = 7;

const CALLS: u8 = 22;

// Makes the call of a record: by its number, for the reason that `writers::call` has.
fn replay(s: &[u8]) -> Result<(), Difference> {
    let n = byte_at(s, CALL);
    if n <= READERS {
        readers::read(n, s)
    } else {
        writers::write(n, s)
    }
}

// Whether the record is whole, and its call is one of them, whose target there is space for.
fn whole(s: &[u8]) -> bool {
    let n = byte_at(s, CALL);
    record_len(s) == s.len() && (1..=CALLS).contains(&n) && target_len(s) <= SPACE
}

// What the last line says of a file that is not refused.
#[derive(Clone, Copy, Debug, PartialEq, Eq)]
struct Totals {
    cases: u64,
    differ: u64,
}

impl fmt::Display for Totals {
    fn fmt<W: fmt::Write>(&self, f: &mut fmt::Formatter<W>) -> fmt::Result {
        write!(f, "{} cases, {} differ", self.cases, self.differ)
    }
}

// And of one that is.
#[derive(Clone, Copy, Debug, PartialEq, Eq)]
enum Refusal {
    NoSample,
    AtCase(u64),
}

impl fmt::Display for Refusal {
    fn fmt<W: fmt::Write>(&self, f: &mut fmt::Formatter<W>) -> fmt::Result {
        match *self {
            Refusal::NoSample => write!(f, "refused: no PLC2, or too long"),
            Refusal::AtCase(case) => write!(f, "refused at case {case}"),
        }
    }
}

// Each case, and that nothing is behind the last.
fn all(rt: &impl Print, records: &[u8], cases: u64) -> Result<Totals, Refusal> {
    let mut rest = records;
    let mut differ = 0;
    for case in 1..=cases {
        let s = front(rest, record_len(rest));
        if !whole(s) {
            return Err(Refusal::AtCase(case));
        }
        if let Err(difference) = replay(s) {
            if differ < SHOWN {
                // A call is told by its place in SHAPES of tests/compare/calls/case.rs.
                let call = byte_at(s, CALL);
                let _ = println!(rt; "differs: case {case}, call {call}, {difference}");
            }
            differ += 1;
        }
        rest = tail(rest, s.len());
    }
    if !rest.is_empty() {
        return Err(Refusal::AtCase(cases));
    }
    Ok(Totals { cases, differ })
}

// The file has the mark and the number of records in front of them.
fn run(rt: &impl Print, file: &[u8; FILE], n: usize) -> Result<Totals, Refusal> {
    let text = front(file, n);
    if get_le::<_, u32>(text, 0) != PLC2 || n == FILE {
        return Err(Refusal::NoSample);
    }
    let cases: u32 = get_le(text, 4);
    all(rt, tail(text, HEAD), u64::from(cases))
}

// Reads to the front of `file`, as much as it holds, and answers how much that is. Where a read fails, the file ends, with what came before:
// of this `read_to_end` says nothing.
fn load(rt: &impl Input, file: &mut [u8; FILE]) -> usize {
    let mut input = rt.reader();
    let mut done = 0;
    while done < FILE {
        let n = input.read(&mut file[done..]).unwrap_or(0);
        if n == 0 {
            break;
        }
        done += n;
    }
    done
}

fn main(rt: HostRuntime) {
    // An array, and no Vec: with little memory a Vec cannot grow, and the file is judged by the part of it that was read.
    let mut file = [0u8; FILE];
    let n = load(&rt, &mut file);
    // What cannot be written is lost.
    let _ = match run(&rt, &file, n) {
        Ok(totals) => println!(rt; "{totals}"),
        Err(refusal) => println!(rt; "{refusal}"),
    };
}
