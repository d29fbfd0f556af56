// NMT states and their codes (EPSG DS 301, Appendix 3.6). A state of both kinds of node has one name and one code.
ghost use Rattle.std.specs.Prelude.{◌≡◌};
ghost use Rattle.types.specs.CodeCauses.{ReadsState};
ghost use Rattle.types.specs.States.{state_code};

use crate::hal::PowerlinkError;

#[derive(Clone, Copy, Debug, PartialEq, Eq)]
pub enum NmtState {
    NmtGsOff = 0x00,
    NmtGsInitialising = 0x19,
    NmtGsResetApplication = 0x29,
    NmtGsResetCommunication = 0x39,
    NmtGsResetConfiguration = 0x79,
    NmtNotActive = 0x1C,
    NmtPreOperational1 = 0x1D,
    NmtPreOperational2 = 0x5D,
    NmtReadyToOperate = 0x6D,
    NmtOperational = 0xFD,
    NmtCsStopped = 0x4D,
    NmtBasicEthernet = 0x1E,
}

impl TryFrom<u8> for NmtState {
    type Error = PowerlinkError;

    ghost try_from_gives = { ReadsState };

    #[tactic(auto, unfolding(crate::specs::States::state_of))]
    fn try_from(b: u8) -> Result<NmtState, PowerlinkError> {
        match b {
            0x00 => Ok(NmtState::NmtGsOff),
            0x19 => Ok(NmtState::NmtGsInitialising),
            0x29 => Ok(NmtState::NmtGsResetApplication),
            0x39 => Ok(NmtState::NmtGsResetCommunication),
            0x79 => Ok(NmtState::NmtGsResetConfiguration),
            0x1C => Ok(NmtState::NmtNotActive),
            0x1D => Ok(NmtState::NmtPreOperational1),
            0x5D => Ok(NmtState::NmtPreOperational2),
            0x6D => Ok(NmtState::NmtReadyToOperate),
            0xFD => Ok(NmtState::NmtOperational),
            0x4D => Ok(NmtState::NmtCsStopped),
            0x1E => Ok(NmtState::NmtBasicEthernet),
            _ => Err(PowerlinkError::InvalidNmtState(b)),
        }
    }
}

impl From<NmtState> for u8 {
    ghost from_gives = { λ x b. b ≡ state_code x };

    fn from(state: NmtState) -> u8 {
        state as u8
    }
}
