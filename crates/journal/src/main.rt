// Lists the journal that comes on standard input (01, "Journal"). What is listed, and when it is over, the calls of
// `list_part` decide; here is carrying over what they leave. All reading and writing is in `streams`, so that nothing but the
// listing is written on standard output.
#![tactic(auto)]

mod streams;

ghost use Rattle.std.specs.Prelude.{◌-◌, ◌≤◌, ◌<◌, true, false, ◌≡◌, length, take};
ghost use Rattle.journal.specs.Rest.{rest_after, buffer_len, record_len, Stands, Listed, Left, Waits, InAll};
ghost use Rattle.journal.specs.Streams.{fresh, count_most, has_room};
ghost use Rattle.journal.specs.declared.End.TheVariants as End·cases;
ghost use Rattle.journal_records.specs.Parts.{crowded};

use journal_records::listing::{ListError, Phase, Stop, list_part};
use octets::slices::{front, tail};
use std::io::Input;
use streams::{Failed, Streams, tell_too_long};

const BUFFER_LEN: usize = 65536;

// What is read into, and what is written: many records, of which one turn lists all.
type Buffer = [u8; BUFFER_LEN];

// What follows a part of the journal: octets that go on from `at`.
#[derive(Clone, Copy, Debug, PartialEq, Eq)]
struct Rest {
    phase: Phase,
    at: usize,
}

fn is_crowded(answer: Result<Stop, ListError>) -> bool
    ensures { result ≡ crowded answer }
{
    matches!(answer, Ok(Stop::Full) | Err(ListError::BufferTooShort))
}

// What follows a call of `list_part` that left the octets from `at` on: nothing where the journal is at its end, or refused, and
// what is due of it is said.
fn rest_after(answer: Result<Stop, ListError>, phase: Phase, at: usize) -> Option<Rest>
    ensures { result ≡ rest_after answer phase at }
{
    match answer {
        Ok(Stop::More | Stop::Full) | Err(ListError::BufferTooShort) => Some(Rest { phase, at }),
        _ => None,
    }
}

// What these functions are lent comes one by one: a struct of it would be made in `main` for one call, and taken apart in each.
// Lists a part, and writes `out` as often as it fills.
fn list(
    rt: &(impl Print + Eprint),
    streams: &mut Streams,
    phase: Phase,
    bytes: &[u8],
    out: &mut Buffer,
) -> Result<Option<Rest>, Failed>
    requires stands { Stands streams.old phase bytes.now }
    requires counted { (streams.old.said ≤ count_most) × (length bytes.now ≤ buffer_len) }
    ensures { Listed bytes.now streams.old streams.new result }
{
    let mut to_come = phase;
    let mut at = 0;
    loop {
        let left = tail(bytes, at);
        let part = list_part(to_come, left, streams.has_ended(), out);
        let answer = part.answer;
        let next = part.phase;
        at += part.consumed;
        streams.say(rt, front(out, part.written))?;
        if !is_crowded(answer) {
            return Ok(rest_after(answer, next, at));
        }
        to_come = next;
    }
}

// Lists the first `n` octets, and moves what is left of them to the front.
// An array, and a number beside it that says how much is held: a Vec would have to be allocated, and could fail.
fn list_held(
    rt: &(impl Print + Eprint),
    streams: &mut Streams,
    phase: Phase,
    text: &mut Buffer,
    n: usize,
    out: &mut Buffer,
) -> Result<Option<Rest>, Failed>
    requires stands { Stands streams.old phase (take n text.old) }
    requires counted { (streams.old.said ≤ count_most) × (n ≤ length text.old) }
    ensures { Left streams.old streams.new result text.new }
{
    let rest = list(rt, streams, phase, front(text, n), out)?;
    let Some(rest) = rest else {
        return Ok(None);
    };
    let at = rest.at;
    text.copy_within(at..n, 0);
    Ok(Some(Rest {
        phase: rest.phase,
        at: n - at,
    }))
}

// Reads behind the octets that are held, and lists.
#[tactic(auto, using(crate::proofs::Turns::turn_laws))]
fn turn(
    rt: &(impl Input + Print + Eprint),
    streams: &mut Streams,
    phase: Phase,
    text: &mut Buffer,
    held: usize,
    out: &mut Buffer,
) -> Result<Option<Rest>, Failed>
    requires stands { Stands streams.old phase (take held text.old) × (streams.old.ended ≡ false) }
    requires room { (has_room streams.old ≡ true) × (held < record_len) }
    ensures { Waits streams.old streams.new result text.new }
{
    let got = streams.read(rt, &mut text[held..])?;
    list_held(rt, streams, phase, text, held + got, out)
}

// Why the turns end, where not all is said.
#[derive(Clone, Copy, Debug, PartialEq, Eq)]
enum End {
    Failed,
    // More is read or said than is counted.
    TooLong,
}

impl From<Failed> for End {
    ghost from_gives = { λ f e. e ≡ End·cases.Failed };

    fn from(_failed: Failed) -> End {
        End::Failed
    }
}

// Turns, one after the other. A proved loop has to end, and nothing says that the input does: so it does where the counts would
// be used up, which no run brings about.
#[tactic(auto, using(crate::proofs::Turns::at_start, crate::proofs::Turns::record_some))]
fn all_turns(
    rt: &(impl Input + Print + Eprint),
    streams: &mut Streams,
    text: &mut Buffer,
    out: &mut Buffer,
) -> Result<(), End>
    requires { streams.old ≡ fresh }
    ensures { InAll streams.new result }
{
    let mut to_come = Phase::Header;
    let mut held = 0;
    while streams.has_room() {
        let rest = turn(rt, streams, to_come, text, held, out)?;
        let Some(rest) = rest else {
            return Ok(());
        };
        to_come = rest.phase;
        held = rest.at;
    }
    tell_too_long(rt);
    Err(End::TooLong)
}

fn main(rt: HostRuntime) {
    let mut streams = Streams::new();
    let mut text = [0; BUFFER_LEN];
    let mut out = [0; BUFFER_LEN];
    // What has failed is said on standard error.
    let _ = all_turns(&rt, &mut streams, &mut text, &mut out);
}
