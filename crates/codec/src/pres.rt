// The rules of reading PRes.
ghost use Rattle.std.specs.Prelude.{◌≡◌};
ghost use Rattle.codec.specs.Verdicts.{pres_answer};
ghost use Rattle.codec.specs.PRes.{pres_of, pres_flags_of, read_pres};

use frame::PowerlinkFrame;
use octets::little_endian::get_le;
use octets::slices::byte_at;
use poll::pres::{EN, PResFlags, PResFrame, STATE_AT};
use poll::{FIELDS_LEN, MS, RD};
use types::hal::PowerlinkError;
use types::mapping::PDOVersion;
use types::poll_flags::{priority_at, requests_at};
use types::states::NmtState;
use types::{C_ADR_BROADCAST_NODE_ID, NodeId};

// The tests of a section: the state and the size that its fields are read with, or why it is refused.
#[tactic(auto, unfolding(crate::specs::PRes::read_pres))]
pub fn judge(s: &[u8]) -> Result<(NmtState, u16), PowerlinkError>
    ensures { pres_answer result s.now ≡ read_pres s.now }
{
    if s.len() < FIELDS_LEN {
        return Err(PowerlinkError::BufferTooShort);
    }
    if s[1] != C_ADR_BROADCAST_NODE_ID {
        return Err(PowerlinkError::InvalidPlFrame);
    }
    let nmt_state = NmtState::try_from(s[STATE_AT])?;
    let size: u16 = get_le(s, 8);
    let len = size as usize;
    if s.len() - FIELDS_LEN < len {
        return Err(PowerlinkError::BufferTooShort);
    }
    Ok((nmt_state, size))
}

// The frame, or why it is refused.
pub(crate) fn deserialize(s: &[u8]) -> Result<PowerlinkFrame, PowerlinkError>
    ensures { result ≡ read_pres s.now }
{
    let (nmt_state, size) = judge(s)?;
    Ok(PowerlinkFrame::PRes(fields(s, nmt_state, size)))
}

// The fields of a section; octets past its end count as 0.
pub fn fields(s: &[u8], nmt_state: NmtState, payload_size: u16) -> PResFrame
    ensures { result ≡ pres_of s.now nmt_state payload_size }
{
    PResFrame {
        destination: NodeId(byte_at(s, 1)),
        source: NodeId(byte_at(s, 2)),
        nmt_state,
        flags: flags_of(byte_at(s, 4), byte_at(s, 5)),
        pdo_version: PDOVersion(byte_at(s, 6)),
        payload_size,
    }
}

// The flags in octets 4 and 5. No `From`: of a pair of octets it would not say which is which.
#[tactic(auto, unfolding(crate::specs::PRes::pres_flags_of))]
fn flags_of(octet4: u8, octet5: u8) -> PResFlags
    ensures { result ≡ pres_flags_of octet4 octet5 }
{
    PResFlags {
        ms: octet4 / MS % 2 == 1,
        en: octet4 / EN % 2 == 1,
        rd: octet4 / RD % 2 == 1,
        pr: priority_at(octet5),
        rs: requests_at(octet5),
    }
}
