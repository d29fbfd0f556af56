// The rules of reading ASnd.
ghost use Rattle.std.specs.Prelude.{◌≡◌};
ghost use Rattle.codec.specs.Verdicts.{asnd_answer};
ghost use Rattle.codec.specs.ASnd.{asnd_of, read_asnd, asnd_payload_length};

use control::asnd::{ASndFrame, FIELDS_LEN, SERVICE_AT};
use frame::PowerlinkFrame;
use octets::slices::{byte_at, tail, trimmed_len};
use section::MIN_SECTION;
use services::ServiceId;
use services::table::{Services, contains};
use types::NodeId;
use types::hal::PowerlinkError;

// The tests of a section: that it is read, or why it is refused.
#[tactic(auto, unfolding(crate::specs::ASnd::read_asnd))]
pub fn judge(services: &Services, s: &[u8]) -> Result<(), PowerlinkError>
    ensures { asnd_answer result s.now ≡ read_asnd services.now s.now }
{
    if s.len() < FIELDS_LEN {
        return Err(PowerlinkError::BufferTooShort);
    }
    let service = s[SERVICE_AT];
    if !contains(services, service) {
        return Err(PowerlinkError::InvalidServiceId(service));
    }
    Ok(())
}

// The frame, or why it is refused.
pub(crate) fn deserialize(services: &Services, s: &[u8]) -> Result<PowerlinkFrame, PowerlinkError>
    ensures { result ≡ read_asnd services.now s.now }
{
    judge(services, s)?;
    Ok(PowerlinkFrame::ASnd(fields(s)))
}

// The fields of a section; octets past its end count as 0.
pub fn fields(s: &[u8]) -> ASndFrame
    ensures { result ≡ asnd_of s.now }
{
    ASndFrame {
        destination: NodeId(byte_at(s, 1)),
        source: NodeId(byte_at(s, 2)),
        service_id: ServiceId(byte_at(s, SERVICE_AT)),
    }
}

// The length of the payload: a section of the smallest size may be padded, so it loses the zeros at its end.
#[tactic(auto, unfolding(crate::specs::ASnd::asnd_payload_length))]
pub(crate) fn payload_len(s: &[u8]) -> usize
    ensures { result ≡ asnd_payload_length s.now }
{
    let p = tail(s, FIELDS_LEN);
    if s.len() == MIN_SECTION {
        trimmed_len(p)
    } else {
        p.len()
    }
}
