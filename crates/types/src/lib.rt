// The IDs, versions, times, constants, codes and errors that POWERLINK frames are made of (powerlink-rs: types.rs).
#![tactic(auto)]

ghost use Rattle.std.specs.Prelude.{◌≡◌};
ghost use Rattle.types.specs.Nodes.{is_cn_node_id};

pub mod basic;
pub mod causes;
pub mod common;
pub mod constants;
pub mod error_mode;
pub mod hal;
pub mod mapping;
pub mod message_type;
pub mod poll_flags;
pub mod requested_service;
pub mod states;

// A POWERLINK node ID. Any octet is one: what a frame holds is kept as it stands.
#[derive(Clone, Copy, Debug, PartialEq, Eq)]
pub struct NodeId(pub u8);

impl NodeId {
    // Whether it is the ID of a controlled node (01: a head): 1 to 239.
    // Two compares: `contains` of a range is no plainer, as it takes the octet by reference.
    pub fn is_cn(self) -> bool
        ensures { result ≡ is_cn_node_id self.0 }
    {
        1 <= self.0 && self.0 <= C_ADR_MAX_CN_NODE_ID
    }
}

// The version of POWERLINK (EPSG DS 301, Table 112).
#[derive(Clone, Copy, Debug, PartialEq, Eq)]
pub struct EPLVersion(pub u8);

// The EtherType of POWERLINK frames.
pub const C_DLL_ETHERTYPE_EPL: u16 = 0x88AB;

// The node ID of the managing node (01: the box).
pub const C_ADR_MN_DEF_NODE_ID: u8 = 240;

// The largest node ID of a controlled node (01: a head).
pub const C_ADR_MAX_CN_NODE_ID: u8 = 239;

// The node ID of a frame to all nodes.
pub const C_ADR_BROADCAST_NODE_ID: u8 = 255;

// The multicast addresses (EPSG DS 301, Appendix 3).
pub const C_DLL_MULTICAST_SOC: [u8; 6] = [0x01, 0x11, 0x1E, 0x00, 0x00, 0x01];

pub const C_DLL_MULTICAST_PRES: [u8; 6] = [0x01, 0x11, 0x1E, 0x00, 0x00, 0x02];

pub const C_DLL_MULTICAST_SOA: [u8; 6] = [0x01, 0x11, 0x1E, 0x00, 0x00, 0x03];

pub const C_DLL_MULTICAST_ASND: [u8; 6] = [0x01, 0x11, 0x1E, 0x00, 0x00, 0x04];
