// The services of ASnd frames, and the tables that say which of them are known (02, CR 1: 01's twelve are replaced by a loaded table).
#![tactic(auto)]

ghost use Rattle.std.specs.Prelude.{◌≡◌};
ghost use Rattle.services.specs.Ids.{ds301_ids, is_listed};

pub mod ds301;
pub mod load;
pub mod table;

// The service of an ASnd frame, any octet: which of them are known, a table says.
#[derive(Clone, Copy, Debug, PartialEq, Eq)]
pub struct ServiceId(pub u8);

// The twelve that powerlink-rs lists (EPSG DS 301, Appendix 3.3 and Table 138).
pub const IDENT_RESPONSE: u8 = 0x01;

pub const STATUS_RESPONSE: u8 = 0x02;

pub const NMT_REQUEST: u8 = 0x03;

pub const NMT_COMMAND: u8 = 0x04;

pub const SDO: u8 = 0x05;

pub const NMT_PUBLISH_TIME: u8 = 0x0B;

pub const NMT_PUBLISH_NMT_STATE: u8 = 0x0D;

pub const NMT_PUBLISH_NODE_STATE: u8 = 0x0E;

pub const NMT_PUBLISH_NODE_LIST: u8 = 0x0F;

pub const NMT_PUBLISH_EMERG_NEW: u8 = 0x10;

pub const NMT_PUBLISH_HEARTBEAT: u8 = 0x11;

pub const NMT_PUBLISH_ACTIVE_NODES: u8 = 0x12;

impl ServiceId {
    // Whether it is one of the twelve, by 01's ranges. Readers and writers ask the table, which for the twelve is proved to hold what this
    // lists.
    #[tactic(auto, unfolding(crate::specs::Ids::is_listed))]
    pub fn is_ds301(self) -> bool
        ensures { result ≡ is_listed self.0 }
    {
        matches!(self.0, 0x01..=0x05 | 0x0B | 0x0D..=0x12)
    }
}

// The twelve by their names, ascending: a constant has no contract, and this holds each to its number.
pub fn ds301_ids() -> [u8; 12]
    ensures { result ≡ ds301_ids }
{
    [
        IDENT_RESPONSE,
        STATUS_RESPONSE,
        NMT_REQUEST,
        NMT_COMMAND,
        SDO,
        NMT_PUBLISH_TIME,
        NMT_PUBLISH_NMT_STATE,
        NMT_PUBLISH_NODE_STATE,
        NMT_PUBLISH_NODE_LIST,
        NMT_PUBLISH_EMERG_NEW,
        NMT_PUBLISH_HEARTBEAT,
        NMT_PUBLISH_ACTIVE_NODES,
    ]
}
