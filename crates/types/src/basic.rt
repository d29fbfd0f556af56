// Ethernet addresses and the Ethernet header (IEEE 802.3, 3.1.1 and 3.2.3).
ghost use Rattle.std.specs.Prelude.{◌≡◌};
ghost use Rattle.types.specs.Addresses.{is_multicast, is_broadcast};
ghost use Rattle.types.specs.Header.{is_powerlink, powerlink_header, eth_bytes};

use crate::C_DLL_ETHERTYPE_EPL;
use octets::big_endian::u16_be;

// The six octets of an address, in the order in which they are sent.
#[derive(Clone, Copy, Debug, PartialEq, Eq)]
pub struct MacAddress(pub [u8; 6]);

impl MacAddress {
    // The address of all stations.
    pub const BROADCAST: MacAddress = MacAddress([0xFF; 6]);

    // Whether the address is that of a group.
    pub fn is_multicast(self) -> bool
        ensures { result ≡ is_multicast self.0 }
    {
        self.0[0] % 2 == 1
    }

    // Whether the address is that of all stations.
    #[tactic(auto, unfolding(crate::specs::Addresses::is_broadcast))]
    pub fn is_broadcast(self) -> bool
        ensures { result ≡ is_broadcast self.0 }
    {
        self == MacAddress::BROADCAST
    }
}

// The octets of an Ethernet header.
pub const ETH_LEN: usize = 14;

// The octets in front of a frame's section.
#[derive(Clone, Copy, Debug, PartialEq, Eq)]
pub struct EthernetHeader {
    pub destination_mac: MacAddress,
    pub source_mac: MacAddress,
    // As a number; it is sent high octet first.
    pub ether_type: u16,
}

impl EthernetHeader {
    // The header of a POWERLINK frame from `src` to `dest`.
    pub fn new(dest: MacAddress, src: MacAddress) -> EthernetHeader
        ensures { result ≡ powerlink_header dest src }
    {
        EthernetHeader {
            destination_mac: dest,
            source_mac: src,
            ether_type: C_DLL_ETHERTYPE_EPL,
        }
    }

    // Whether the EtherType is that of POWERLINK.
    pub fn is_powerlink(self) -> bool
        ensures { result ≡ is_powerlink self }
    {
        self.ether_type == C_DLL_ETHERTYPE_EPL
    }

    // The octets of the header. No `From`: the name says which end is octets, as of std's numbers.
    #[tactic(auto, unfolding(crate::specs::Header::eth_bytes))]
    pub fn to_bytes(self) -> [u8; ETH_LEN]
        ensures { result ≡ eth_bytes self }
    {
        let d = self.destination_mac.0;
        let s = self.source_mac.0;
        let t = u16_be(self.ether_type);
        [
            d[0], d[1], d[2], d[3], d[4], d[5], s[0], s[1], s[2], s[3], s[4], s[5], t[0], t[1],
        ]
    }
}

// A frame with the header that goes in front of it.
#[derive(Clone, Copy, Debug, PartialEq, Eq)]
pub struct NewFrame<F> {
    pub eth_header: EthernetHeader,
    pub frame: F,
}
