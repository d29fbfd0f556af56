// A loaded table of services: octets that the caller lends, one for each ID. Any but 0 means that the table holds it, and
// every table holds StatusResponse, so that every pattern is a table under which the error exchange runs.
ghost use Rattle.std.specs.Prelude.{◌≡◌};
ghost use Rattle.services.specs.Table.{holds};

use crate::STATUS_RESPONSE;

pub const SERVICES_LEN: usize = 256;

// Octets and no set of IDs: C lends them.
pub type Services = [u8; SERVICES_LEN];

// Whether a table holds a service.
#[tactic(auto, unfolding(crate::specs::Table::holds))]
pub fn contains(services: &Services, id: u8) -> bool
    ensures { result ≡ holds services.now id }
{
    if id == STATUS_RESPONSE {
        return true;
    }
    services[id as usize] != 0
}
