// The tables of services that the heads are under (02, CR 1): a house's, which has service IDs of its own, or the twelve of
// DS 301.
ghost use Rattle.std.specs.Prelude.{◌≡◌};
ghost use Rattle.demo.specs.World.{is_house, services_of};

use services::ds301::DS301;
use services::load::load;
use services::table::Services;

// The house's table as it is loaded: the mark `PLS`, version 1, then StatusResponse and three services that DS 301 does not
// know. The other eleven of DS 301 are not in it.
pub const FILE: &[u8] = b"PLS\x01\x00\x02\x20\x80\xFF";

// One of the three.
pub const SERVICE: u8 = 0x20;

// Whether a head is the house's: every second one is, 21 and 239.
pub fn has(number: usize) -> bool
    ensures { result ≡ is_house number }
{
    number % 2 == 1
}

// The table of a head. Were the house's refused, the twelve would stay, and odd frames would come to something else (odd).
pub fn table_of(number: usize) -> Services
    ensures { result ≡ services_of number }
{
    let mut services = DS301;
    if has(number) {
        let _ = load(FILE, &mut services);
    }
    services
}
