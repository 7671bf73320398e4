// The profile table: how many profiles it has, and the profile of a name. Both take one pass over the lent table and
// look at each byte at most six times; nothing is copied but a name. What a table says is `profile`'s `table_of`; what
// is answered is said in `specs/Answer.antt`.
#![tactic(auto)]

ghost use Rattle.std.specs.Prelude.{◌≡◌, ◌+◌, ◌≤◌, ◌<◌, [], length, drop};
ghost use Rattle.names.specs.Name.{raised};
ghost use Rattle.profile.specs.Table.{profile_count, name_length_at, profiles_from, table_of, shape_in, profile_in};
ghost use Rattle.profile_table.specs.Answer.{checked, entry, found_in};
ghost use Rattle.profile_table.specs.Internal.Steps.{found_here, scanned};

use refusal::Refusal;

// The place of a profile's record in its table, and its marks.
#[derive(Clone, Copy)]
pub struct Entry {
    pub at: usize,
    pub enabled: bool,
    pub des_allowed: bool,
}

// How many profiles there are, and what was found among them.
#[derive(Clone, Copy)]
struct Scan {
    count: usize,
    found: Option<Entry>,
}

// The entry of the record at a place.
fn entry_of(table: &[u8], at: usize) -> Entry
    ensures { result ≡ entry at (profile_in table.now at) }
{
    Entry {
        at,
        enabled: profile_tokens::enabled(table, at),
        des_allowed: profile_tokens::des_allowed(table, at),
    }
}

// What was found, or else the record at a place, whose name has `n` bytes, if it is the name that is looked for.
fn find_here(found: Option<Entry>, table: &[u8], at: usize, n: usize, name: &[u8]) -> Option<Entry>
    requires { (name_length_at (drop at table.now) ≡ n) × (at + 4 + n ≤ length table.now) }
    ensures { result ≡ found_here at name.now (profile_in table.now at) found }
{
    if found.is_some() {
        return found;
    }
    if octets::same(name, &table[at + 4..at + 4 + n]) {
        return Some(entry_of(table, at));
    }
    None
}

// The records after the version byte, and the profile of a name among them.
fn scan_records(table: &[u8], name: &[u8]) -> Result<Scan, Refusal>
    requires { 0 < length table.now }
    ensures { result ≡ scanned name.now (profiles_from (shape_in table.now) profile_count [] (drop 1 table.now)) }
{
    let version = table[0];
    let fixed = profile_record::record_length(version);
    let mut at: usize = 1;
    let mut before = &table[0..0];
    let mut count: usize = 0;
    let mut found = None;
    while at < table.len() {
        let n = profile_record::next_record(version, &table[at..], before, count)?;
        found = find_here(found, table, at, n, name);
        before = &table[at + 4..at + 4 + n];
        at = at + fixed + n;
        count += 1;
    }
    Ok(Scan { count, found })
}

// A whole table, and the profile of a name in it.
fn scan_table(table: &[u8], name: &[u8]) -> Result<Scan, Refusal>
    ensures { result ≡ scanned name.now (table_of table.now) }
{
    if table.len() == 0 {
        return Err(Refusal::BadTable);
    }
    if table[0] != profile::TABLE_VERSION {
        return Err(Refusal::BadTable);
    }
    scan_records(table, name)
}

// How many profiles a table has, or 30, 31, 32.
pub fn check(table: &[u8]) -> Result<usize, Refusal>
    ensures { result ≡ checked (table_of table.now) }
{
    let scan = scan_table(table, &table[0..0])?;
    Ok(scan.count)
}

// The profile of a name, raised first, or that there is none; 30, 31 or 32, wherever the fault is in the table. A
// text that is no name is in no table.
pub fn find(table: &[u8], name: &[u8]) -> Result<Option<Entry>, Refusal>
    ensures { result ≡ found_in (raised name.now) (table_of table.now) }
{
    let held = names::profile_name(name);
    let bytes = held.bytes;
    let n = held.length;
    let scan = scan_table(table, &bytes[0..n])?;
    Ok(scan.found)
}
