// 01's lines to check that are not proved as a table, and others beside them.
use crate::cause::Cause::{
    BookFull, BoxFull, EntryInvalid, IdOutOfRange, IdRegistered, NotRegistered, NotStatusResponse,
    NothingBooked, QueueFull, TooShort, UnknownState,
};
use crate::entries::Kind::{Terminator, WideProfile};
use crate::odd::Odd::{NoState, SoC};
use crate::outcome::Success::Written;
use crate::outcome::{DONE, KEPT, KNOWN};
use crate::script::Call::{
    Answer, AnswerZeros, BoxReads, Exchanges, Fresh, HeadReads, PReq, PReqWithoutEa, Raise,
    RaiseOne, Register, Request, Spoil, Take,
};
use crate::script::Step;
use crate::script::Step::{Quiet, Shown};

pub const OF_HEAD: &[Step] = &[
    Shown(Fresh(0), Err(IdOutOfRange), "a head of ID 0"),
    Shown(Fresh(240), Err(IdOutOfRange), "a head of ID 240"),
    Shown(Fresh(239), DONE, "a head of ID 239"),
    Quiet(Fresh(7)),
    Shown(
        RaiseOne(Terminator),
        Err(EntryInvalid),
        "an entry of mode 0",
    ),
    Shown(
        RaiseOne(WideProfile),
        Err(EntryInvalid),
        "an entry of profile 4,096",
    ),
    Shown(Raise(16), DONE, "a 16th waiting entry"),
    Shown(Raise(1), Err(QueueFull), "a 17th waiting entry"),
    Shown(
        RaiseOne(WideProfile),
        Err(EntryInvalid),
        "a 17th of profile 4,096",
    ),
    Quiet(Fresh(7)),
    Quiet(Raise(1)),
    Shown(Answer(71), Err(TooShort), "an answer of 72 octets into 71"),
    Quiet(Raise(1)),
    Shown(
        Answer(192),
        Ok(Written(92)),
        "the next answer, with one more raised",
    ),
    Quiet(Raise(2)),
    Shown(
        Answer(192),
        Ok(Written(92)),
        "its repeat, with two more raised",
    ),
];

pub const OF_BOX: &[Step] = &[
    Quiet(Fresh(7)),
    Shown(Register(0), Err(IdOutOfRange), "registering 0"),
    Shown(Register(240), Err(IdOutOfRange), "registering 240"),
    Shown(Register(7), DONE, "registering 7"),
    Shown(Register(7), Err(IdRegistered), "registering 7 again"),
    Shown(Register(21), DONE, "a second head"),
    Shown(Register(120), DONE, "a third head"),
    Shown(Register(239), DONE, "a fourth head"),
    Shown(Register(200), Err(BoxFull), "a fifth head"),
    Shown(Register(240), Err(IdOutOfRange), "a fifth of ID 240"),
    Shown(Register(7), Err(IdRegistered), "a fifth of ID 7"),
    Quiet(Fresh(7)),
    Quiet(Register(7)),
    Shown(Take(8), Err(NotRegistered), "taking for an unregistered ID"),
    Shown(Take(0), Err(NotRegistered), "taking for ID 0"),
    Shown(Take(7), Err(NothingBooked), "taking with nothing booked"),
    Shown(Request(7, 60), Ok(Written(60)), "a request into 60 octets"),
    Shown(Request(7, 59), Err(TooShort), "a request into 59"),
    Shown(
        Request(8, 59),
        Err(NotRegistered),
        "one to an unregistered ID into 59",
    ),
];

// Frames in the box's order: 10, 11, the rules of StatusResponses, known. Then a book that is full.
pub const OF_READING: &[Step] = &[
    Quiet(Fresh(8)),
    Quiet(Register(7)),
    Quiet(Raise(1)),
    Quiet(Answer(192)),
    Quiet(Spoil(SoC)),
    Shown(BoxReads(192), Err(NotStatusResponse), "an SoC to the box"),
    Quiet(Answer(192)),
    Shown(
        BoxReads(192),
        Err(NotRegistered),
        "an answer of an unregistered head",
    ),
    Shown(BoxReads(31), Err(NotRegistered), "31 octets of it"),
    Quiet(Register(8)),
    Shown(BoxReads(31), Err(TooShort), "the 31 once it is registered"),
    Shown(BoxReads(192), DONE, "the whole answer"),
    Quiet(Spoil(NoState)),
    Shown(
        BoxReads(192),
        Err(UnknownState),
        "its repeat with a state that is none",
    ),
    Quiet(Fresh(7)),
    Quiet(Register(7)),
    Quiet(AnswerZeros(192)),
    Shown(BoxReads(192), KNOWN, "an answer of zeros"),
    Quiet(Exchanges(15)),
    Quiet(Raise(4)),
    Quiet(Answer(192)),
    Shown(BoxReads(192), DONE, "the answer that fills the book"),
    Shown(BoxReads(192), KNOWN, "a known answer with a full book"),
    Quiet(Request(7, 60)),
    Shown(HeadReads, DONE, "the request behind it"),
    Quiet(Raise(1)),
    Quiet(Answer(192)),
    Shown(
        BoxReads(192),
        Err(BookFull),
        "a new answer with a full book",
    ),
    Shown(Take(7), DONE, "taking one"),
    Shown(BoxReads(192), DONE, "the same answer again"),
];

// A fault is closed; the answer with the next one is lost, and then the host sends a PReq. What EA it carries decides whether
// that fault is lost too.
pub const OF_HOST: &[Step] = &[
    Quiet(Fresh(7)),
    Quiet(Register(7)),
    Quiet(Raise(1)),
    Quiet(Answer(192)),
    Quiet(BoxReads(192)),
    Quiet(Request(7, 60)),
    Quiet(HeadReads),
    Quiet(Raise(1)),
    Shown(
        Answer(192),
        Ok(Written(72)),
        "the answer with a second fault, which is lost",
    ),
    Quiet(PReq),
    Shown(
        HeadReads,
        KEPT,
        "a PReq of the host, with the EA that `flags` says",
    ),
    Shown(Answer(192), Ok(Written(72)), "the next answer"),
    Shown(BoxReads(192), DONE, "the box reads it"),
    Quiet(PReq),
    Shown(HeadReads, DONE, "the next PReq with the EA of `flags`"),
    Shown(Take(7), DONE, "taking the first fault"),
    Shown(Take(7), DONE, "taking the second"),
    Quiet(Fresh(7)),
    Quiet(Register(7)),
    Quiet(Raise(1)),
    Quiet(Answer(192)),
    Quiet(BoxReads(192)),
    Quiet(Request(7, 60)),
    Quiet(HeadReads),
    Quiet(Raise(1)),
    Shown(
        Answer(192),
        Ok(Written(72)),
        "the same with EA 0: the answer is lost",
    ),
    Quiet(PReqWithoutEa),
    Shown(HeadReads, DONE, "the PReq closes what is not booked"),
    Shown(
        Answer(192),
        Ok(Written(60)),
        "the next answer carries nothing",
    ),
    Shown(BoxReads(192), DONE, "the box reads it, and books nothing"),
    Shown(Take(7), DONE, "taking the first fault"),
    Shown(Take(7), Err(NothingBooked), "taking the second: it is lost"),
];
