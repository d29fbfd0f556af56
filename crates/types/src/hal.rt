// The errors of reading and writing frames (powerlink-rs: hal.rs).
ghost use Rattle.std.specs.Prelude.{◌≡◌};
ghost use Rattle.types.specs.Causes.{cause_number, cause_byte};

use crate::causes::{
    INVALID_FRAME, NOT_POWERLINK, TOO_SHORT, UNKNOWN_MESSAGE, UNKNOWN_REQUEST, UNKNOWN_SERVICE,
    UNKNOWN_STATE,
};

// Why a frame, or a buffer for one, is refused. What stands in brackets is the octet that was found.
#[derive(Clone, Copy, Debug, PartialEq, Eq)]
pub enum PowerlinkError {
    BufferTooShort,
    InvalidEthernetFrame,
    InvalidPlFrame,
    InvalidMessageType(u8),
    InvalidNmtState(u8),
    InvalidServiceId(u8),
    InvalidRequestedServiceId(u8),
}

impl PowerlinkError {
    // The number of the cause in 01's table, as C is told it.
    // No `From`: an error has two octets, this one and `byte`, and the names say which is meant.
    pub fn number(self) -> u8
        ensures { result ≡ cause_number self }
    {
        match self {
            PowerlinkError::BufferTooShort => TOO_SHORT,
            PowerlinkError::InvalidEthernetFrame => NOT_POWERLINK,
            PowerlinkError::InvalidPlFrame => INVALID_FRAME,
            PowerlinkError::InvalidMessageType(_) => UNKNOWN_MESSAGE,
            PowerlinkError::InvalidNmtState(_) => UNKNOWN_STATE,
            PowerlinkError::InvalidServiceId(_) => UNKNOWN_SERVICE,
            PowerlinkError::InvalidRequestedServiceId(_) => UNKNOWN_REQUEST,
        }
    }

    // The octet that 01's table returns with the number, where it does not return the number alone.
    pub fn byte(self) -> Option<u8>
        ensures { result ≡ cause_byte self }
    {
        match self {
            PowerlinkError::BufferTooShort => None,
            PowerlinkError::InvalidEthernetFrame => None,
            PowerlinkError::InvalidPlFrame => None,
            PowerlinkError::InvalidMessageType(b) => Some(b),
            PowerlinkError::InvalidNmtState(b) => Some(b),
            PowerlinkError::InvalidServiceId(b) => Some(b),
            PowerlinkError::InvalidRequestedServiceId(b) => Some(b),
        }
    }
}
