// Loading a table of services: the mark `PLS`, the 16-bit version 1 low octet first, then the IDs, one octet each, strictly
// ascending, StatusResponse among them.
ghost use Rattle.std.specs.Prelude.{◌≡◌};
ghost use Rattle.services.specs.Load.{is_ascending, is_table, ids_answer, Loads};
ghost use Rattle.services.specs.Table.{marked};

use crate::STATUS_RESPONSE;
use crate::table::{SERVICES_LEN, Services};
use octets::little_endian::get_le;
use octets::slices::{has_mark, tail};

const MARK: [u8; 3] = *b"PLS";

// The version that is loaded, and where it stands.
const VERSION: u16 = 1;

const VERSION_AT: usize = 3;

// The octets of mark and version.
const START_LEN: usize = 5;

// Why a table is not loaded.
#[derive(Clone, Copy, Debug, PartialEq, Eq)]
pub enum LoadError {
    // Under 5 octets, or the mark or the version is another.
    NotATable,
    NotAscending,
    WithoutStatusResponse,
}

// Loads a table; a refusal leaves the lent one as it was.
pub fn load(file: &[u8], services: &mut Services) -> Result<(), LoadError>
    ensures { Loads file.now result services.old services.new }
{
    if !is_table(file) {
        return Err(LoadError::NotATable);
    }
    let ids = tail(file, START_LEN);
    judge(ids)?;
    *services = [0u8; SERVICES_LEN];
    mark(ids, services);
    Ok(())
}

// Whether mark and version are there and right.
#[tactic(auto, unfolding(crate::specs::Load::is_table))]
fn is_table(file: &[u8]) -> bool
    ensures { result ≡ is_table file.now }
{
    if file.len() < START_LEN {
        return false;
    }
    if !has_mark(file, MARK) {
        return false;
    }
    get_le::<_, u16>(file, VERSION_AT) == VERSION
}

// What loading answers of the IDs.
#[tactic(auto, unfolding(crate::specs::Load::ids_answer))]
fn judge(ids: &[u8]) -> Result<(), LoadError>
    ensures { result ≡ ids_answer ids.now }
{
    if !ascending(ids) {
        return Err(LoadError::NotAscending);
    }
    if !ids.contains(&STATUS_RESPONSE) {
        return Err(LoadError::WithoutStatusResponse);
    }
    Ok(())
}

fn ascending(ids: &[u8]) -> bool
    ensures { result ≡ is_ascending ids.now }
{
    ids.is_sorted_by(|id, next| *id < *next)
}

// Marks each of the IDs in the table.
#[tactic(auto, unfolding(crate::specs::Table::marked))]
fn mark(ids: &[u8], services: &mut Services)
    ensures { services.new ≡ marked services.old ids.now }
{
    for &id in ids {
        services[id as usize] = 1;
    }
}
