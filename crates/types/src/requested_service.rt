// The services that an SoA frame requests, and their codes (EPSG DS 301, Appendix 3.4).
ghost use Rattle.std.specs.Prelude.{◌≡◌};
ghost use Rattle.types.specs.CodeCauses.{ReadsRequested};
ghost use Rattle.types.specs.RequestedServices.{requested_code};

use crate::hal::PowerlinkError;

#[derive(Clone, Copy, Debug, PartialEq, Eq)]
pub enum RequestedServiceId {
    NoService = 0x00,
    IdentRequest = 0x01,
    StatusRequest = 0x02,
    NmtRequestInvite = 0x03,
    UnspecifiedInvite = 0xFF,
}

impl TryFrom<u8> for RequestedServiceId {
    type Error = PowerlinkError;

    ghost try_from_gives = { ReadsRequested };

    #[tactic(auto, unfolding(crate::specs::RequestedServices::requested_of))]
    fn try_from(b: u8) -> Result<RequestedServiceId, PowerlinkError> {
        match b {
            0x00 => Ok(RequestedServiceId::NoService),
            0x01 => Ok(RequestedServiceId::IdentRequest),
            0x02 => Ok(RequestedServiceId::StatusRequest),
            0x03 => Ok(RequestedServiceId::NmtRequestInvite),
            0xFF => Ok(RequestedServiceId::UnspecifiedInvite),
            _ => Err(PowerlinkError::InvalidRequestedServiceId(b)),
        }
    }
}

impl From<RequestedServiceId> for u8 {
    ghost from_gives = { λ x b. b ≡ requested_code x };

    fn from(service: RequestedServiceId) -> u8 {
        service as u8
    }
}
