// Message types and their codes (EPSG DS 301, Appendix 3.1).
ghost use Rattle.std.specs.Prelude.{◌≡◌};
ghost use Rattle.types.specs.CodeCauses.{ReadsMessage};
ghost use Rattle.types.specs.Messages.{message_code};

use crate::hal::PowerlinkError;

#[derive(Clone, Copy, Debug, PartialEq, Eq)]
pub enum MessageType {
    SoC = 1,
    PReq = 3,
    PRes = 4,
    SoA = 5,
    ASnd = 6,
}

impl TryFrom<u8> for MessageType {
    type Error = PowerlinkError;

    ghost try_from_gives = { ReadsMessage };

    #[tactic(auto, unfolding(crate::specs::Messages::message_of))]
    fn try_from(b: u8) -> Result<MessageType, PowerlinkError> {
        match b {
            1 => Ok(MessageType::SoC),
            3 => Ok(MessageType::PReq),
            4 => Ok(MessageType::PRes),
            5 => Ok(MessageType::SoA),
            6 => Ok(MessageType::ASnd),
            _ => Err(PowerlinkError::InvalidMessageType(b)),
        }
    }
}

impl From<MessageType> for u8 {
    ghost from_gives = { λ x b. b ≡ message_code x };

    fn from(message_type: MessageType) -> u8 {
        message_type as u8
    }
}
