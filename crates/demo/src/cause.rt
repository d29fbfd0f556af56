// 01's causes of a refusal, and those that 02 adds, by their numbers; 17 to 19, which are of journals, come to no call here.
ghost use Rattle.std.specs.Prelude.{◌≡◌, Err};
ghost use Rattle.types.specs.Causes.{cause_number};
ghost use Rattle.services.specs.Load.{load_cause};
ghost use Rattle.reporter.specs.Rules.{new_cause, raise_cause};
ghost use Rattle.collector.specs.Rules.{register_cause, read_cause, request_cause, take_cause};
ghost use Rattle.demo.specs.Causes.{number};

use collector::{ReadError, RegisterError, RequestError, TakeError};
use reporter::{NewError, RaiseError};
use services::load::LoadError;
use std::fmt;
use types::hal::PowerlinkError;

#[derive(Clone, Copy, Debug, PartialEq, Eq)]
pub enum Cause {
    TooShort = 1,
    NotPowerlink = 2,
    InvalidFrame = 3,
    UnknownMessage = 4,
    UnknownState = 5,
    UnknownService = 6,
    UnknownRequest = 7,
    EntryInvalid = 8,
    QueueFull = 9,
    NotStatusResponse = 10,
    NotRegistered = 11,
    BookFull = 12,
    IdOutOfRange = 13,
    IdRegistered = 14,
    BoxFull = 15,
    NothingBooked = 16,
    NotATable = 20,
    NotAscending = 21,
    WithoutStatusResponse = 22,
    StatusEntry = 23,
}

// More than the largest number.
pub const CAUSES: usize = 24;

// Those that a head or a box gives.
pub const OF_THE_EXCHANGE: [Cause; 17] = [
    Cause::TooShort,
    Cause::NotPowerlink,
    Cause::InvalidFrame,
    Cause::UnknownMessage,
    Cause::UnknownState,
    Cause::UnknownService,
    Cause::UnknownRequest,
    Cause::EntryInvalid,
    Cause::QueueFull,
    Cause::NotStatusResponse,
    Cause::NotRegistered,
    Cause::BookFull,
    Cause::IdOutOfRange,
    Cause::IdRegistered,
    Cause::BoxFull,
    Cause::NothingBooked,
    Cause::StatusEntry,
];

// 01's number, or 02's: what is shown and counted.
impl From<Cause> for usize {
    ghost from_gives = { λ c n. n ≡ number c };

    fn from(cause: Cause) -> usize {
        cause as usize
    }
}

// In few words.
impl fmt::Display for Cause {
    fn fmt<W: fmt::Write>(&self, f: &mut fmt::Formatter<W>) -> fmt::Result {
        f.write_str(match self {
            Cause::TooShort => "input or target too short",
            Cause::NotPowerlink => "EtherType not 88AB h",
            Cause::InvalidFrame => "section empty, or PRes not to 255",
            Cause::UnknownMessage => "message type unknown",
            Cause::UnknownState => "NMT state unknown",
            Cause::UnknownService => "service unknown",
            Cause::UnknownRequest => "requested service unknown",
            Cause::EntryInvalid => "entry of mode 0, or profile above 4,095",
            Cause::QueueFull => "16 already waiting",
            Cause::NotStatusResponse => "no StatusResponse",
            Cause::NotRegistered => "ID not registered",
            Cause::BookFull => "fewer free places than entries to book",
            Cause::IdOutOfRange => "ID not 1 to 239",
            Cause::IdRegistered => "ID registered already",
            Cause::BoxFull => "four registered",
            Cause::NothingBooked => "nothing booked to take",
            Cause::NotATable => "no table of services",
            Cause::NotAscending => "IDs of services not ascending",
            Cause::WithoutStatusResponse => "table without service 2",
            Cause::StatusEntry => "entry with bit 15 set",
        })
    }
}

impl From<PowerlinkError> for Cause {
    ghost from_gives = { λ e c. number c ≡ cause_number e };

    fn from(e: PowerlinkError) -> Cause {
        match e {
            PowerlinkError::BufferTooShort => Cause::TooShort,
            PowerlinkError::InvalidEthernetFrame => Cause::NotPowerlink,
            PowerlinkError::InvalidPlFrame => Cause::InvalidFrame,
            PowerlinkError::InvalidMessageType(_) => Cause::UnknownMessage,
            PowerlinkError::InvalidNmtState(_) => Cause::UnknownState,
            PowerlinkError::InvalidServiceId(_) => Cause::UnknownService,
            PowerlinkError::InvalidRequestedServiceId(_) => Cause::UnknownRequest,
        }
    }
}

impl From<NewError> for Cause {
    ghost from_gives = { λ e c. number c ≡ (new_cause (Err e)).number };

    fn from(e: NewError) -> Cause {
        match e {
            NewError::IdOutOfRange => Cause::IdOutOfRange,
        }
    }
}

impl From<RaiseError> for Cause {
    ghost from_gives = { λ e c. number c ≡ (raise_cause (Err e)).number };

    fn from(e: RaiseError) -> Cause {
        match e {
            RaiseError::EntryInvalid => Cause::EntryInvalid,
            RaiseError::StatusEntry => Cause::StatusEntry,
            RaiseError::QueueFull => Cause::QueueFull,
        }
    }
}

impl From<LoadError> for Cause {
    ghost from_gives = { λ e c. number c ≡ (load_cause (Err e)).number };

    fn from(e: LoadError) -> Cause {
        match e {
            LoadError::NotATable => Cause::NotATable,
            LoadError::NotAscending => Cause::NotAscending,
            LoadError::WithoutStatusResponse => Cause::WithoutStatusResponse,
        }
    }
}

impl From<RegisterError> for Cause {
    ghost from_gives = { λ e c. number c ≡ (register_cause (Err e)).number };

    fn from(e: RegisterError) -> Cause {
        match e {
            RegisterError::IdOutOfRange => Cause::IdOutOfRange,
            RegisterError::IdRegistered => Cause::IdRegistered,
            RegisterError::Full => Cause::BoxFull,
        }
    }
}

impl From<ReadError> for Cause {
    ghost from_gives = { λ e c. number c ≡ (read_cause (Err e)).number };

    fn from(e: ReadError) -> Cause {
        match e {
            ReadError::Frame(e) => e.into(),
            ReadError::NotStatusResponse => Cause::NotStatusResponse,
            ReadError::NotRegistered => Cause::NotRegistered,
            ReadError::BookFull => Cause::BookFull,
        }
    }
}

impl From<RequestError> for Cause {
    ghost from_gives = { λ e c. number c ≡ (request_cause (Err e)).number };

    fn from(e: RequestError) -> Cause {
        match e {
            RequestError::Frame(e) => e.into(),
            RequestError::NotRegistered => Cause::NotRegistered,
        }
    }
}

impl From<TakeError> for Cause {
    ghost from_gives = { λ e c. number c ≡ (take_cause (Err e)).number };

    fn from(e: TakeError) -> Cause {
        match e {
            TakeError::NotRegistered => Cause::NotRegistered,
            TakeError::NothingBooked => Cause::NothingBooked,
        }
    }
}
