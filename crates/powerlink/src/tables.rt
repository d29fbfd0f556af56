// Tables of services: which IDs of an ASnd are known to the calls that are lent one.
ghost use Rattle.powerlink.specs.Tables.{ServicesLoad, ServicesContain};

use services::load::{LoadError, load};
use services::table::{Services, contains};
use types::causes::{NOT_A_TABLE, NOT_ASCENDING, WITHOUT_STATUS_RESPONSE};

// Loads a table: 20, then 21, then 22. A refusal leaves the lent one as it was.
pub fn powerlink_services_load(file: &[u8], services: &mut Services) -> u8
    ensures { ServicesLoad file.now result services.old services.new }
{
    match load(file, services) {
        Ok(()) => 0,
        Err(LoadError::NotATable) => NOT_A_TABLE,
        Err(LoadError::NotAscending) => NOT_ASCENDING,
        Err(LoadError::WithoutStatusResponse) => WITHOUT_STATUS_RESPONSE,
    }
}

// Whether a table holds a service.
pub fn powerlink_services_contains(services: &Services, id: u8, held: &mut bool) -> u8
    ensures { ServicesContain id result services.now held.new }
{
    *held = contains(services, id);
    0
}
