// What a frame holds beside the exchange, as the callers here have it.
use collector::RequestFields;
use control::asnd::ASndFrame;
use reporter::AnswerFields;
use status_response::bit_field::StaticErrorBitField;
use types::EPLVersion;
use types::basic::MacAddress;
use types::poll_flags::{PRFlag, RSFlag};
use types::states::NmtState;

pub const EPL_VERSION: EPLVersion = EPLVersion(32);

// The managing node.
pub const MANAGING_NODE_ID: u8 = 240;

// The address of a node.
pub fn station(id: u8) -> MacAddress {
    MacAddress([0x02, 0, 0, 0, 0, id])
}

// What goes into an answer's fields; with zeros, all of its octets behind the service are 0.
pub const FILLED: u8 = 9;

pub const ZEROS: u8 = 0;

pub fn answer_fields(id: u8, some: u8) -> AnswerFields {
    let nmt_state = match some {
        ZEROS => NmtState::NmtGsOff,
        _ => NmtState::NmtOperational,
    };
    AnswerFields {
        source_mac: station(id),
        dest_mac: ASndFrame::multicast(),
        ec_flag: some % 2 == 1,
        pr: PRFlag::from(some % 8),
        rs: RSFlag(some % 8),
        nmt_state,
        static_error_bit_field: StaticErrorBitField {
            error_register: some,
            specific_errors: [some; 7],
        },
    }
}

pub fn request_fields() -> RequestFields {
    RequestFields {
        source_mac: station(MANAGING_NODE_ID),
        nmt_state: NmtState::NmtOperational,
        epl_version: EPL_VERSION,
    }
}
