// The listing of a journal, part by part: a journal may be longer than any buffer, and a record may lie across two
// parts. What is not consumed of a part goes in front of the next one.
ghost use Rattle.std.specs.Prelude.{◌≡◌, length, Err};
ghost use Rattle.journal_records.specs.Parts.{Lists, Prints, list_cause, answer_after, told, refusal, header_step, record_step, step_of};
ghost use Rattle.journal_records.specs.Parts.{later as Parts·later, awaits as Parts·awaits, ended as Parts·ended, stopped as Parts·stopped};

use crate::text::{Line, put_line};
use crate::{JOURNAL_RECORD_LEN, JOURNAL_START_LEN, VERSION, valid};
use error_entry::ErrorEntry;
use octets::little_endian::get_le;
use octets::slices::{has_mark, tail};
use types::NodeId;
use types::causes::{NOT_A_JOURNAL, RECORD_INVALID, TOO_SHORT, UNKNOWN_VERSION};

// The octets of the longest line. With room for fewer nothing is listed.
pub const LINE_MAX: usize = 55;

// What the octets to come are.
#[derive(Clone, Copy, Debug, PartialEq, Eq)]
pub enum Phase {
    Header,
    Records,
}

// Why a call listed no further, of a journal that is not refused.
#[derive(Clone, Copy, Debug, PartialEq, Eq)]
pub enum Stop {
    // Octets have to come. The next call gets those that are not consumed, with more behind them.
    More,
    // There is a line to write, and no room for it behind those that were written. The next call gets room, and the octets
    // that are not consumed.
    Full,
    // The journal is at its end, and all of it is listed.
    End,
}

// Why a journal is refused, or a call lists nothing.
#[derive(Clone, Copy, Debug, PartialEq, Eq)]
pub enum ListError {
    // There is a line to write, and under `LINE_MAX` octets of room: nothing was done.
    BufferTooShort,
    // The journal is refused, and the line that says so is written: under 5 octets or the mark wrong.
    NotAJournal,
    UnknownVersion,
    // A record is cut, of mode 0, or its ID is not that of a controlled node.
    RecordInvalid,
}

// What was done with a part: how many of its octets are dealt with, how many of text were written, why it was no more,
// and what is to come if calls go on. The answer stands beside the counts, which a refusal has too.
// Counts and no slices: the caller moves what is left within its buffer, which a slice of it would keep lent.
#[derive(Clone, Copy, Debug, PartialEq, Eq)]
pub struct Part {
    pub answer: Result<Stop, ListError>,
    pub phase: Phase,
    pub consumed: usize,
    pub written: usize,
}

// Lists as much of a part as there is room for: octets behind it are to come, unless it is the last. No iterator: each step goes
// on where the one before has ended, in the octets and in the text.
// Phase, octets and room come apart: the phase is kept from one call to the next, and the other two are lent for one.
pub fn list_part(phase: Phase, bytes: &[u8], last: bool, out: &mut [u8]) -> Part
    ensures { Lists phase bytes.now last result out.old out.new }
{
    let mut to_come = phase;
    let mut consumed = 0;
    let mut written = 0;
    loop {
        let part = step(to_come, tail(bytes, consumed), last, &mut out[written..]);
        let answer = part.answer;
        let next = part.phase;
        consumed += part.consumed;
        written += part.written;
        if part.consumed == 0 {
            return Part {
                answer: answer_after(consumed, answer),
                phase: next,
                consumed,
                written,
            };
        }
        to_come = next;
    }
}

// The answer in all, of a last step that consumed nothing.
#[tactic(auto, unfolding(crate::specs::Parts::answer_after))]
fn answer_after(consumed: usize, answer: Result<Stop, ListError>) -> Result<Stop, ListError>
    ensures { result ≡ answer_after consumed answer }
{
    if consumed == 0 {
        return answer;
    }
    later(answer)
}

// What an answer comes to where lines are written already: the room is used up, and was not too short.
fn later(answer: Result<Stop, ListError>) -> Result<Stop, ListError>
    ensures { result ≡ Parts·later answer }
{
    match answer {
        Err(ListError::BufferTooShort) => Ok(Stop::Full),
        _ => answer,
    }
}

// One line, or none: the header's, that of the first record, or a refusal's. Two arms: a closure for each phase is no plainer.
#[tactic(auto, unfolding(crate::specs::Parts::step_of))]
fn step(phase: Phase, bytes: &[u8], last: bool, out: &mut [u8]) -> Part
    ensures { Prints (step_of phase bytes.now last (length out.old)) result out.old out.new }
{
    let n = bytes.len();
    if awaits(phase, n, last) {
        return stopped(Ok(Stop::More), phase);
    }
    if ended(phase, n) {
        return stopped(Ok(Stop::End), phase);
    }
    if out.len() < LINE_MAX {
        return stopped(Err(ListError::BufferTooShort), phase);
    }
    match phase {
        Phase::Header => header(bytes, out),
        Phase::Records => record(bytes, out),
    }
}

// Whether octets have to come behind `n` before anything is told of them.
#[tactic(auto, unfolding(crate::specs::Parts::awaits, crate::specs::Listing::version1))]
fn awaits(phase: Phase, n: usize, last: bool) -> bool
    ensures { result ≡ Parts·awaits phase n last }
{
    if last {
        return false;
    }
    match phase {
        Phase::Header => n < JOURNAL_START_LEN,
        Phase::Records => n < JOURNAL_RECORD_LEN,
    }
}

// Whether a journal may end with `n` octets left.
#[tactic(auto, unfolding(crate::specs::Parts::ended))]
fn ended(phase: Phase, n: usize) -> bool
    ensures { result ≡ Parts·ended phase n }
{
    match phase {
        Phase::Header => false,
        Phase::Records => n == 0,
    }
}

fn stopped(answer: Result<Stop, ListError>, phase: Phase) -> Part
    ensures { result ≡ told (Parts·stopped answer phase) }
{
    Part {
        answer,
        phase,
        consumed: 0,
        written: 0,
    }
}

// The header's line, where mark and version are there and right.
#[tactic(auto, unfolding(crate::specs::Listing::header_line, crate::specs::Listing::layout_of, crate::specs::Listing::marked, crate::specs::Listing::version1, crate::specs::Parts::header_step))]
fn header(bytes: &[u8], out: &mut [u8]) -> Part
    ensures { Prints (header_step bytes.now) result out.old out.new }
{
    if bytes.len() < JOURNAL_START_LEN {
        return refuse(ListError::NotAJournal, Phase::Header, out);
    }
    let mark = has_mark(bytes, *b"PLB");
    let known = get_le::<_, u16>(bytes, 3) == VERSION;
    if !mark {
        return refuse(ListError::NotAJournal, Phase::Header, out);
    }
    if !known {
        return refuse(ListError::UnknownVersion, Phase::Header, out);
    }
    let mut line = Line::new(out);
    line.text(b"node code mode profile sec nsec info\n");
    Part {
        answer: Ok(Stop::More),
        phase: Phase::Records,
        consumed: JOURNAL_START_LEN,
        written: line.len,
    }
}

// The first record's line.
#[tactic(auto, unfolding(crate::specs::Listing::fields_line, crate::specs::Listing::good_record, crate::specs::Listing::record_line, crate::specs::Listing::version1, crate::specs::Parts::record_step, error_entry::specs::Entry::read_entry))]
fn record(bytes: &[u8], out: &mut [u8]) -> Part
    ensures { Prints (record_step bytes.now) result out.old out.new }
{
    let Ok(entry) = ErrorEntry::deserialize(tail(bytes, 1)) else {
        return refuse(ListError::RecordInvalid, Phase::Records, out);
    };
    let node = NodeId(bytes[0]);
    if !valid(node, entry) {
        return refuse(ListError::RecordInvalid, Phase::Records, out);
    }
    let written = put_line(node, entry, out);
    Part {
        answer: Ok(Stop::More),
        phase: Phase::Records,
        consumed: JOURNAL_RECORD_LEN,
        written,
    }
}

// The line of a refusal, with its number.
#[tactic(auto, unfolding(crate::specs::Listing::refused_line))]
fn refuse(error: ListError, phase: Phase, out: &mut [u8]) -> Part
    ensures { Prints (refusal error phase) result out.old out.new }
{
    let mut line = Line::new(out);
    line.text(b"refused ");
    line.number(cause(error) as u32, b'\n');
    Part {
        answer: Err(error),
        phase,
        consumed: 0,
        written: line.len,
    }
}

// 01's number. No `From`: the name says what the number is, and `refuse` alone asks for it.
fn cause(error: ListError) -> u8
    ensures { result ≡ (list_cause (Err error)).number }
{
    match error {
        ListError::BufferTooShort => TOO_SHORT,
        ListError::NotAJournal => NOT_A_JOURNAL,
        ListError::UnknownVersion => UNKNOWN_VERSION,
        ListError::RecordInvalid => RECORD_INVALID,
    }
}
