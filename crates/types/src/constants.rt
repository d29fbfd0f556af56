// The constants of types.rs together: a constant has no contract, and what a function returns has one.
ghost use Rattle.std.specs.Prelude.{◌≡◌};
ghost use Rattle.types.specs.Constants.{powerlink_constants};

use crate::basic::MacAddress;
use crate::{
    C_ADR_BROADCAST_NODE_ID, C_ADR_MAX_CN_NODE_ID, C_ADR_MN_DEF_NODE_ID, C_DLL_ETHERTYPE_EPL,
    C_DLL_MULTICAST_ASND, C_DLL_MULTICAST_PRES, C_DLL_MULTICAST_SOA, C_DLL_MULTICAST_SOC,
};

#[derive(Clone, Copy, Debug, PartialEq, Eq)]
pub struct Constants {
    pub ethertype_epl: u16,
    pub max_cn_node_id: u8,
    pub mn_def_node_id: u8,
    pub broadcast_node_id: u8,
    pub multicast_soc: MacAddress,
    pub multicast_pres: MacAddress,
    pub multicast_soa: MacAddress,
    pub multicast_asnd: MacAddress,
}

pub fn all() -> Constants
    ensures { result ≡ powerlink_constants }
{
    Constants {
        ethertype_epl: C_DLL_ETHERTYPE_EPL,
        max_cn_node_id: C_ADR_MAX_CN_NODE_ID,
        mn_def_node_id: C_ADR_MN_DEF_NODE_ID,
        broadcast_node_id: C_ADR_BROADCAST_NODE_ID,
        multicast_soc: MacAddress(C_DLL_MULTICAST_SOC),
        multicast_pres: MacAddress(C_DLL_MULTICAST_PRES),
        multicast_soa: MacAddress(C_DLL_MULTICAST_SOA),
        multicast_asnd: MacAddress(C_DLL_MULTICAST_ASND),
    }
}
