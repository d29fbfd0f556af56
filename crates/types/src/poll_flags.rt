// The priority and the number of waiting requests that a node shows (EPSG DS 301, 4.2.4.1.2.2 and Appendix 3.2).
ghost use Rattle.std.specs.Prelude.{◌≡◌};
ghost use Rattle.types.specs.PollFlags.{priority_code, priority_in, requests_to_send, poll_octet, priority_at, requests_at};

// The priority of the oldest request, highest first.
#[derive(Clone, Copy, Debug, PartialEq, Eq)]
pub enum PRFlag {
    PrioNmtRequest = 7,
    High3 = 6,
    High2 = 5,
    High1 = 4,
    PrioGenericRequest = 3,
    Low3 = 2,
    Low2 = 1,
    Low1 = 0,
}

impl From<u8> for PRFlag {
    ghost from_gives = { λ b p. p ≡ priority_in b };

    // The priority in the three low bits of an octet: the others are masked, as in the Rust.
    #[tactic(auto, unfolding(crate::specs::PollFlags::priority_in))]
    fn from(b: u8) -> PRFlag {
        match b % 8 {
            7 => PRFlag::PrioNmtRequest,
            6 => PRFlag::High3,
            5 => PRFlag::High2,
            4 => PRFlag::High1,
            3 => PRFlag::PrioGenericRequest,
            2 => PRFlag::Low3,
            1 => PRFlag::Low2,
            _ => PRFlag::Low1,
        }
    }
}

impl From<PRFlag> for u8 {
    ghost from_gives = { λ p b. b ≡ priority_code p };

    fn from(priority: PRFlag) -> u8 {
        priority as u8
    }
}

// The number that the three bits of a count hold at most.
const MOST: u8 = 7;

// How many requests wait to be sent. Above 7 counts as 7.
#[derive(Clone, Copy, Debug, PartialEq, Eq)]
pub struct RSFlag(pub u8);

impl RSFlag {
    pub fn new(value: u8) -> RSFlag
        ensures { result.0 ≡ requests_to_send value }
    {
        RSFlag(value.min(MOST))
    }

    pub fn get(self) -> u8
        ensures { result ≡ requests_to_send self.0 }
    {
        self.0.min(MOST)
    }
}

// The octet that holds both flags: bits 5 to 3 and bits 2 to 0. No `From`: an octet has two, and the names say which is meant.
#[tactic(auto, unfolding(crate::specs::PollFlags::poll_octet))]
pub fn poll_octet(pr: PRFlag, rs: RSFlag) -> u8
    ensures { result ≡ poll_octet pr rs.0 }
{
    8 * u8::from(pr) + rs.get()
}

// And each of them, read from it.
pub fn priority_at(octet: u8) -> PRFlag
    ensures { result ≡ priority_at octet }
{
    PRFlag::from(octet / 8)
}

pub fn requests_at(octet: u8) -> RSFlag
    ensures { result ≡ requests_at octet }
{
    RSFlag(octet % 8)
}
