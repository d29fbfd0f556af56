// The static error bit field (EPSG DS 301, 6.5.8.1; 01: the error field).
ghost use Rattle.std.specs.Prelude.{◌≡◌, ◌≤◌, length};
ghost use Rattle.section.specs.Write.{Writes};
ghost use Rattle.status_response.specs.BitField.{field_of, field_bytes, ReadsField};

use octets::slices::put;
use section::write;
use types::hal::PowerlinkError;

#[derive(Clone, Copy, Debug, PartialEq, Eq)]
pub struct StaticErrorBitField {
    pub error_register: u8,
    // Bits of the device profile or of the vendor.
    pub specific_errors: [u8; 7],
}

// Why octets are refused, and the error field that they give all the same, those past the end counting as 0.
#[derive(Clone, Copy, Debug, PartialEq, Eq)]
pub struct RefusedErrorField {
    pub field: StaticErrorBitField,
    pub error: PowerlinkError,
}

// The octets of the field.
pub const FIELD_LEN: usize = 8;

impl StaticErrorBitField {
    // The field that 8 octets are. This and `to_bytes` are no `From`: their names say which end of a conversion is octets.
    pub fn from_bytes(octets: &[u8; FIELD_LEN]) -> StaticErrorBitField
        ensures { result ≡ field_of octets.now }
    {
        field_in(octets)
    }

    // The 8 octets of the field.
    #[tactic(auto, unfolding(crate::specs::BitField::field_bytes))]
    pub fn to_bytes(self) -> [u8; FIELD_LEN]
        ensures { result ≡ field_bytes self }
    {
        let s = self.specific_errors;
        [
            self.error_register,
            s[0],
            s[1],
            s[2],
            s[3],
            s[4],
            s[5],
            s[6],
        ]
    }

    // Writes the 8 octets, if they fit.
    pub fn serialize(self, target: &mut [u8]) -> Result<usize, PowerlinkError>
        ensures { Writes (field_bytes self) result target.old target.new }
    {
        write(&self.to_bytes(), target)
    }

    // Reads the first 8 octets.
    pub fn deserialize(buffer: &[u8]) -> Result<StaticErrorBitField, RefusedErrorField>
        ensures { ReadsField buffer.now result }
    {
        if buffer.len() < FIELD_LEN {
            return Err(RefusedErrorField {
                field: field_at(buffer),
                error: PowerlinkError::BufferTooShort,
            });
        }
        Ok(field_in(buffer))
    }
}

// The field that 8 octets are.
#[tactic(auto, unfolding(crate::specs::BitField::field_of))]
fn field_in(buffer: &[u8]) -> StaticErrorBitField
    requires { 8 ≤ length buffer.now }
    ensures { result ≡ field_of buffer.now }
{
    StaticErrorBitField {
        error_register: buffer[0],
        specific_errors: [
            buffer[1], buffer[2], buffer[3], buffer[4], buffer[5], buffer[6], buffer[7],
        ],
    }
}

// The field that the first 8 octets are, those past the end counting as 0.
pub fn field_at(s: &[u8]) -> StaticErrorBitField
    ensures { result ≡ field_of s.now }
{
    if FIELD_LEN <= s.len() {
        return field_in(s);
    }
    let mut padded = [0u8; FIELD_LEN];
    put(&mut padded, 0, s);
    field_in(&padded)
}
