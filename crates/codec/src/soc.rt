// The rules of reading SoC.
ghost use Rattle.std.specs.Prelude.{◌≡◌};
ghost use Rattle.codec.specs.Verdicts.{soc_answer, soc_timed};
ghost use Rattle.codec.specs.SoC.{read_soc};

use control::soc::{FIELDS_LEN, MC, PS, SocFlags, SocFrame};
use frame::PowerlinkFrame;
use octets::little_endian::get_le;
use octets::slices::byte_at;
use types::NodeId;
use types::common::{NetTime, RelativeTime};
use types::hal::PowerlinkError;

// The tests of a section: its times, which are read where its length is known, or why it is refused.
#[tactic(auto, using(crate::proofs::SoCLaws::soc_read, crate::proofs::SoCLaws::soc_short))]
pub fn judge(s: &[u8]) -> Result<(NetTime, RelativeTime), PowerlinkError>
    ensures { soc_answer result s.now ≡ read_soc s.now }
{
    if s.len() < FIELDS_LEN {
        return Err(PowerlinkError::BufferTooShort);
    }
    let net_time = NetTime {
        seconds: get_le(&s[6..10], 0),
        nanoseconds: get_le(&s[10..14], 0),
    };
    let relative_time = RelativeTime(get_le(&s[14..22], 0));
    Ok((net_time, relative_time))
}

// The frame, or why it is refused.
pub(crate) fn deserialize(s: &[u8]) -> Result<PowerlinkFrame, PowerlinkError>
    ensures { result ≡ read_soc s.now }
{
    let (net_time, relative_time) = judge(s)?;
    Ok(PowerlinkFrame::Soc(fields(s, net_time, relative_time)))
}

// The fields of a section; octets past its end count as 0.
pub fn fields(s: &[u8], net_time: NetTime, relative_time: RelativeTime) -> SocFrame
    ensures { result ≡ soc_timed s.now net_time relative_time }
{
    let flags = byte_at(s, 4);
    SocFrame {
        destination: NodeId(byte_at(s, 1)),
        source: NodeId(byte_at(s, 2)),
        flags: SocFlags {
            mc: flags / MC % 2 == 1,
            ps: flags / PS % 2 == 1,
        },
        net_time,
        relative_time,
    }
}
