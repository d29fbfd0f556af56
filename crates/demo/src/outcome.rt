// What a call comes to: what it did, or the cause for which it was refused.
ghost use Rattle.std.specs.Prelude.{◌≡◌, MatchResult, IsOkAnd, IsErrAnd};
ghost use Rattle.demo.specs.Outcomes.{of_box, of_head};
ghost use Rattle.demo.specs.declared.outcome.Success.TheVariants.{Done, Written};

use crate::cause::Cause;
use crate::target::Frame;
use error_entry::ErrorEntry;
use std::fmt;

#[derive(Clone, Copy, Debug, PartialEq, Eq)]
pub enum Success {
    // What the call is for: raised, booked, closed, registered, handed out, loaded.
    Done,
    // The box has booked the batch before.
    Known,
    // A head read EA, and it closes nothing.
    Kept,
    // A frame tells a head nothing.
    Ignored,
    // A frame of so many octets.
    Written(usize),
}

pub type Outcome = Result<Success, Cause>;

pub const DONE: Outcome = Ok(Success::Done);

pub const KNOWN: Outcome = Ok(Success::Known);

pub const KEPT: Outcome = Ok(Success::Kept);

pub const IGNORED: Outcome = Ok(Success::Ignored);

// What a call of the library answers, as an outcome: by the first of the two conversions what it did, by the second why it is refused.
pub fn outcome<T, E>(answer: Result<T, E>) -> Outcome
where
    Success: From<T>,
    Cause: From<E>,
    ensures { MatchResult answer (λ did. IsOkAnd result (bound-1.from_gives did)) (λ e. IsErrAnd result (bound-2.from_gives e)) }
{
    Ok(Success::from(answer?))
}

impl fmt::Display for Success {
    fn fmt<W: fmt::Write>(&self, f: &mut fmt::Formatter<W>) -> fmt::Result {
        match self {
            Success::Done => f.pad("done"),
            Success::Known => f.pad("known"),
            Success::Kept => f.pad("kept"),
            Success::Ignored => f.pad("ignored"),
            Success::Written(len) => fmt::Display::fmt(len, f),
        }
    }
}

impl From<()> for Success {
    ghost from_gives = { λ _ s. s ≡ Done };

    fn from(_done: ()) -> Success {
        Success::Done
    }
}

impl From<Frame> for Success {
    ghost from_gives = { λ f s. s ≡ Written f.len };

    fn from(frame: Frame) -> Success {
        Success::Written(frame.len)
    }
}

// An entry is handed out.
impl From<ErrorEntry> for Success {
    ghost from_gives = { λ _ s. s ≡ Done };

    fn from(_e: ErrorEntry) -> Success {
        Success::Done
    }
}

impl From<collector::ReadOutcome> for Success {
    ghost from_gives = { λ r s. s ≡ of_box r };

    fn from(read: collector::ReadOutcome) -> Success {
        match read {
            collector::ReadOutcome::Booked => Success::Done,
            collector::ReadOutcome::Known => Success::Known,
        }
    }
}

impl From<reporter::ReadOutcome> for Success {
    ghost from_gives = { λ r s. s ≡ of_head r };

    fn from(read: reporter::ReadOutcome) -> Success {
        match read {
            reporter::ReadOutcome::Closed => Success::Done,
            reporter::ReadOutcome::Kept => Success::Kept,
            reporter::ReadOutcome::Ignored => Success::Ignored,
        }
    }
}
