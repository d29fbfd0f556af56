// 02's rules of tables of services and of status entries.
use crate::cause::Cause::{
    BookFull, EntryInvalid, NotATable, NotAscending, NotStatusResponse, NothingBooked, StatusEntry,
    TooShort, UnknownService, WithoutStatusResponse,
};
use crate::entries::Kind::{Status, StatusTerminator};
use crate::house::FILE;
use crate::odd::Odd::{EnOne, HouseService, IdentResponse};
use crate::outcome::Success::Written;
use crate::outcome::{DONE, KNOWN};
use crate::script::Call::{
    Answer, Asnd, BoxReads, Exchanges, Fresh, HeadReads, Load, PutIn, Raise, RaiseOne, Register,
    Request, Spoil, Take,
};
use crate::script::Step;
use crate::script::Step::{Quiet, Shown};

// Tables of services (02, CR 1): 20 is tested first and 22 last. Until one is loaded, the twelve of DS 301 are in use.
pub const OF_TABLES: &[Step] = &[
    Shown(
        Load(b"PLS\x01"),
        Err(NotATable),
        "a table of services of 4 octets",
    ),
    Shown(
        Load(b"PLB\x01\x00\x02"),
        Err(NotATable),
        "one with the mark PLB",
    ),
    Shown(Load(b"PLS\x02\x00\x02"), Err(NotATable), "one of version 2"),
    Shown(
        Load(b"PLS\x01\x01\x02"),
        Err(NotATable),
        "one of version 257",
    ),
    Shown(
        Load(b"PLS\x01\x00\x02\x02"),
        Err(NotAscending),
        "one with an ID twice",
    ),
    Shown(
        Load(b"PLS\x01\x00\x04\x03"),
        Err(NotAscending),
        "one with descending IDs and without 2",
    ),
    Shown(
        Load(b"PLS\x01\x00"),
        Err(WithoutStatusResponse),
        "one without IDs",
    ),
    Shown(
        Load(b"PLS\x01\x00\x01\x03"),
        Err(WithoutStatusResponse),
        "one without 2",
    ),
    Quiet(Fresh(7)),
    Quiet(Register(7)),
    Shown(
        Asnd(60),
        Err(UnknownService),
        "writing an ASnd of service 20h, with the twelve of DS 301",
    ),
    Shown(Asnd(59), Err(TooShort), "writing it into 59 octets"),
    Quiet(Answer(192)),
    Quiet(Spoil(HouseService)),
    Shown(
        BoxReads(192),
        Err(UnknownService),
        "the box reads such an ASnd",
    ),
    Shown(Load(FILE), DONE, "the house's table: 2, 20h, 80h and FFh"),
    Shown(
        BoxReads(192),
        Err(NotStatusResponse),
        "the box reads the same ASnd under it",
    ),
    Quiet(Load(b"PLS\x01\x00\x01\x03")),
    Shown(
        BoxReads(192),
        Err(NotStatusResponse),
        "the same again, after a table was refused",
    ),
    Quiet(Spoil(IdentResponse)),
    Shown(
        BoxReads(192),
        Err(UnknownService),
        "an IdentResponse, which the house's table lacks",
    ),
    Shown(Asnd(60), Ok(Written(60)), "writing an ASnd of service 20h"),
    Quiet(Raise(1)),
    Shown(
        Answer(192),
        Ok(Written(72)),
        "an answer under the house's table",
    ),
    Shown(BoxReads(192), DONE, "the box reads it"),
    Quiet(Request(7, 60)),
    Shown(HeadReads, DONE, "the request behind it"),
    Shown(Take(7), DONE, "taking the fault"),
];

// Entries with bit 15 set (02, CR 2): no head of ours raises one, and no box books one.
pub const OF_STATUS: &[Step] = &[
    Quiet(Fresh(7)),
    Shown(
        RaiseOne(Status),
        Err(StatusEntry),
        "an entry with bit 15 set",
    ),
    Shown(
        RaiseOne(StatusTerminator),
        Err(EntryInvalid),
        "one of mode 0 with bit 15 set",
    ),
    Quiet(Raise(16)),
    Shown(RaiseOne(Status), Err(StatusEntry), "a 17th with bit 15 set"),
    Quiet(Fresh(7)),
    Quiet(Register(7)),
    Quiet(Raise(2)),
    Quiet(Answer(240)),
    Quiet(PutIn(0, Status)),
    Quiet(PutIn(2, Status)),
    Quiet(PutIn(4, Status)),
    Shown(
        BoxReads(240),
        DONE,
        "two entries with status entries before, between and behind",
    ),
    Quiet(Answer(240)),
    Quiet(PutIn(1, Status)),
    Shown(
        BoxReads(240),
        KNOWN,
        "the answer again, with another status entry",
    ),
    Shown(Take(7), DONE, "taking the first entry"),
    Shown(Take(7), DONE, "taking the second"),
    Shown(
        Take(7),
        Err(NothingBooked),
        "taking a third: no status entry is booked",
    ),
    Quiet(Request(7, 60)),
    Shown(HeadReads, DONE, "the request behind it"),
    Quiet(Fresh(7)),
    Quiet(Register(7)),
    Quiet(Raise(2)),
    Quiet(Answer(240)),
    Quiet(PutIn(1, StatusTerminator)),
    Shown(
        BoxReads(240),
        DONE,
        "two entries with one of mode 0 and bit 15 set between",
    ),
    Shown(Take(7), DONE, "taking the first entry"),
    Shown(
        Take(7),
        Err(NothingBooked),
        "taking the second: the reading ends in front of it",
    ),
];

// A batch of nothing else.
pub const OF_STATUS_ALONE: &[Step] = &[
    Quiet(Fresh(7)),
    Quiet(Register(7)),
    Quiet(Answer(240)),
    Quiet(Spoil(EnOne)),
    Quiet(PutIn(0, Status)),
    Quiet(PutIn(1, Status)),
    Shown(BoxReads(240), DONE, "nothing but status entries, with EN 1"),
    Shown(Take(7), Err(NothingBooked), "taking with nothing booked"),
    Shown(BoxReads(240), KNOWN, "the same answer again"),
];

// They take no place of a book.
pub const OF_FULL_BOOK: &[Step] = &[
    Quiet(Fresh(7)),
    Quiet(Register(7)),
    Quiet(Exchanges(15)),
    Quiet(Raise(4)),
    Quiet(Answer(240)),
    Quiet(PutIn(0, Status)),
    Quiet(PutIn(3, Status)),
    Quiet(PutIn(6, Status)),
    Shown(
        BoxReads(240),
        DONE,
        "four entries and three status entries, with four free places",
    ),
    Quiet(PutIn(4, Status)),
    Shown(
        BoxReads(240),
        KNOWN,
        "the answer again, with a fourth and a full book",
    ),
    Quiet(Request(7, 60)),
    Shown(HeadReads, DONE, "the request behind it"),
    Quiet(Answer(240)),
    Quiet(Spoil(EnOne)),
    Quiet(PutIn(0, Status)),
    Shown(
        BoxReads(240),
        DONE,
        "nothing but a status entry, with EN 1 and a full book",
    ),
    Quiet(Answer(240)),
    Quiet(PutIn(0, Status)),
    Shown(BoxReads(240), DONE, "the same with EN 0"),
    Quiet(Raise(1)),
    Quiet(Answer(240)),
    Quiet(PutIn(0, Status)),
    Shown(
        BoxReads(240),
        Err(BookFull),
        "a status entry and an entry with a full book",
    ),
    Shown(Take(7), DONE, "taking one"),
    Shown(BoxReads(240), DONE, "the same answer again"),
];
