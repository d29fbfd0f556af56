// The rules of reading PReq.
ghost use Rattle.std.specs.Prelude.{◌≡◌};
ghost use Rattle.codec.specs.Verdicts.{preq_answer};
ghost use Rattle.codec.specs.PReq.{preq_of, read_preq};

use frame::PowerlinkFrame;
use octets::little_endian::get_le;
use octets::slices::byte_at;
use poll::preq::{EA, PReqFlags, PReqFrame};
use poll::{FIELDS_LEN, MS, RD};
use types::NodeId;
use types::hal::PowerlinkError;
use types::mapping::PDOVersion;

// The tests of a section: the size that its fields are read with, or why it is refused.
#[tactic(auto, unfolding(crate::specs::PReq::read_preq))]
pub fn judge(s: &[u8]) -> Result<u16, PowerlinkError>
    ensures { preq_answer result s.now ≡ read_preq s.now }
{
    if s.len() < FIELDS_LEN {
        return Err(PowerlinkError::BufferTooShort);
    }
    let size: u16 = get_le(s, 8);
    let len = size as usize;
    if s.len() - FIELDS_LEN < len {
        return Err(PowerlinkError::BufferTooShort);
    }
    Ok(size)
}

// The frame, or why it is refused.
pub(crate) fn deserialize(s: &[u8]) -> Result<PowerlinkFrame, PowerlinkError>
    ensures { result ≡ read_preq s.now }
{
    let size = judge(s)?;
    Ok(PowerlinkFrame::PReq(fields(s, size)))
}

// The fields of a section; octets past its end count as 0.
pub fn fields(s: &[u8], payload_size: u16) -> PReqFrame
    ensures { result ≡ preq_of s.now payload_size }
{
    let flags = byte_at(s, 4);
    PReqFrame {
        destination: NodeId(byte_at(s, 1)),
        source: NodeId(byte_at(s, 2)),
        flags: PReqFlags {
            ms: flags / MS % 2 == 1,
            ea: flags / EA % 2 == 1,
            rd: flags / RD % 2 == 1,
        },
        pdo_version: PDOVersion(byte_at(s, 6)),
        payload_size,
    }
}
