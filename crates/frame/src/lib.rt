// The five kinds joined, and writing any of them (powerlink-rs: frame/mod.rs).
#![tactic(auto)]

ghost use Rattle.std.specs.Prelude.{◌≡◌, ◌++◌};
ghost use Rattle.section.specs.Write.{Serializes};
ghost use Rattle.frame.specs.Write.{frame_section, under_table};
ghost use Rattle.frame.specs.Kinds.{into_soc, into_preq, into_pres, into_soa, into_asnd};

pub mod write;

use control::asnd::ASndFrame;
use control::soa::SoAFrame;
use control::soc::SocFrame;
use poll::preq::PReqFrame;
use poll::pres::PResFrame;
use section::write_behind;
use services::table::Services;
use types::hal::PowerlinkError;

#[derive(Clone, Copy, Debug, PartialEq, Eq)]
pub enum PowerlinkFrame {
    Soc(SocFrame),
    PReq(PReqFrame),
    PRes(PResFrame),
    SoA(SoAFrame),
    ASnd(ASndFrame),
}

impl PowerlinkFrame {
    // The five are powerlink-rs's: a `TryFrom` for each kind would be as many blocks, and say less by its name.
    pub fn into_soc(self) -> Result<SocFrame, PowerlinkFrame>
        ensures { result ≡ into_soc self }
    {
        let PowerlinkFrame::Soc(soc) = self else {
            return Err(self);
        };
        Ok(soc)
    }

    pub fn into_preq(self) -> Result<PReqFrame, PowerlinkFrame>
        ensures { result ≡ into_preq self }
    {
        let PowerlinkFrame::PReq(preq) = self else {
            return Err(self);
        };
        Ok(preq)
    }

    pub fn into_pres(self) -> Result<PResFrame, PowerlinkFrame>
        ensures { result ≡ into_pres self }
    {
        let PowerlinkFrame::PRes(pres) = self else {
            return Err(self);
        };
        Ok(pres)
    }

    pub fn into_soa(self) -> Result<SoAFrame, PowerlinkFrame>
        ensures { result ≡ into_soa self }
    {
        let PowerlinkFrame::SoA(soa) = self else {
            return Err(self);
        };
        Ok(soa)
    }

    pub fn into_asnd(self) -> Result<ASndFrame, PowerlinkFrame>
        ensures { result ≡ into_asnd self }
    {
        let PowerlinkFrame::ASnd(asnd) = self else {
            return Err(self);
        };
        Ok(asnd)
    }

    // Table and payload come apart, here and in `write`: a struct of both would be made for the call alone.
    // Writes the section with its payload, if it fits and the table holds an ASnd's service. SoC and SoA have no payload: what
    // is lent as one is left aside. As of `ASndFrame`, a line over its own `serialize_behind`: a trait of the two would be longer than both.
    pub fn serialize(
        self,
        services: &Services,
        payload: &[u8],
        target: &mut [u8],
    ) -> Result<usize, PowerlinkError>
        ensures { Serializes (under_table services.now self (frame_section self payload.now)) result target.old target.new }
    {
        self.serialize_behind(services, b"", payload, target)
    }

    // Writes the octets `front` and behind them such a section, if both fit.
    pub(crate) fn serialize_behind(
        self,
        services: &Services,
        front: &[u8],
        payload: &[u8],
        target: &mut [u8],
    ) -> Result<usize, PowerlinkError>
        ensures { Serializes (under_table services.now self (front.now ++ frame_section self payload.now)) result target.old target.new }
    {
        match self {
            PowerlinkFrame::Soc(f) => write_behind(front, &f.to_bytes(), b"", target),
            PowerlinkFrame::PReq(f) => write_behind(front, &f.to_bytes(), payload, target),
            PowerlinkFrame::PRes(f) => write_behind(front, &f.to_bytes(), payload, target),
            PowerlinkFrame::SoA(f) => write_behind(front, &f.to_bytes(), b"", target),
            PowerlinkFrame::ASnd(f) => f.serialize_behind(services, front, payload, target),
        }
    }
}
