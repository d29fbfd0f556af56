// What stands in front of the error entries (EPSG DS 301, Table 136).
ghost use Rattle.std.specs.Prelude.{◌≡◌, ◌≤◌, length};
ghost use Rattle.status_response.specs.Fields.{front_length, fields_of, head_bytes, ReadsFields, ReadsStatusResponse};

use crate::bit_field::{RefusedErrorField, StaticErrorBitField, field_at};
use octets::slices::tail;
use section::flag;
use types::hal::PowerlinkError;
use types::poll_flags::{PRFlag, RSFlag, poll_octet, priority_at, requests_at};
use types::states::NmtState;

// The octets in front of the entries.
pub const FRONT_LEN: usize = 14;

// Where the state stands.
pub const STATE_AT: usize = 2;

// Where the error field stands.
pub const FIELD_AT: usize = 6;

// The bits of EN and EC in octet 0: 5 and 4 (docs/DIFFERENCES.md: others read 4 and 3).
pub const EN: u8 = 0x20;

pub const EC: u8 = 0x10;

// What stands in front of the entries, but for the error field, which stands beside it.
#[derive(Clone, Copy, Debug, PartialEq, Eq)]
pub struct StatusFields {
    // Exception new.
    pub en_flag: bool,
    // Exception clear.
    pub ec_flag: bool,
    pub pr: PRFlag,
    pub rs: RSFlag,
    pub nmt_state: NmtState,
}

// All of it.
#[derive(Clone, Copy, Debug, PartialEq, Eq)]
pub struct DeserializedStatus {
    pub fields: StatusFields,
    pub static_error_bit_field: StaticErrorBitField,
}

// Reads what stands in front of the entries.
pub fn deserialize(payload: &[u8]) -> Result<DeserializedStatus, RefusedErrorField>
    ensures { ReadsStatusResponse payload.now result }
{
    // The error field is read behind the tests, where the length is known, and beside a refusal only where it is asked for.
    match read_fields(payload) {
        Ok(fields) => Ok(DeserializedStatus {
            fields,
            static_error_bit_field: field_at(tail(payload, FIELD_AT)),
        }),
        Err(error) => Err(RefusedErrorField {
            field: field_at(tail(payload, FIELD_AT)),
            error,
        }),
    }
}

// The fields alone: for a caller that does not want the error field.
#[tactic(auto, unfolding(crate::specs::Fields::read_fields))]
pub fn read_fields(payload: &[u8]) -> Result<StatusFields, PowerlinkError>
    ensures { ReadsFields payload.now result }
{
    if payload.len() < FRONT_LEN {
        return Err(PowerlinkError::BufferTooShort);
    }
    let state = NmtState::try_from(payload[STATE_AT])?;
    Ok(fields(payload, state))
}

// The fields of a payload that has passed the tests.
fn fields(payload: &[u8], nmt_state: NmtState) -> StatusFields
    requires { front_length ≤ length payload.now }
    ensures { result ≡ fields_of payload.now nmt_state }
{
    StatusFields {
        en_flag: payload[0] / EN % 2 == 1,
        ec_flag: payload[0] / EC % 2 == 1,
        pr: priority_at(payload[1]),
        rs: requests_at(payload[1]),
        nmt_state,
    }
}

impl StatusFields {
    // The octets, with the error field. No `From`: a pair of both would be made for the call alone.
    #[tactic(auto, unfolding(crate::specs::BitField::field_bytes, crate::specs::Fields::head_bytes))]
    pub fn to_bytes(self, field: StaticErrorBitField) -> [u8; FRONT_LEN]
        ensures { result ≡ head_bytes self field }
    {
        let pr = self.pr;
        let rs = self.rs;
        let state = self.nmt_state;
        let f = field.to_bytes();
        [
            flag(self.en_flag, EN) + flag(self.ec_flag, EC),
            poll_octet(pr, rs),
            u8::from(state),
            0,
            0,
            0,
            f[0],
            f[1],
            f[2],
            f[3],
            f[4],
            f[5],
            f[6],
            f[7],
        ]
    }
}
