// The tokens of a profile, lent out of the table where its record is, and its marks.
#![tactic(auto)]

ghost use Rattle.std.specs.Prelude.{◌≡◌, ◌+◌, ◌<◌, take, drop};
ghost use Rattle.profile.specs.Profile.{enabled as is_enabled, des_allowed, stored_des, stored_sha};
ghost use Rattle.profile.specs.Table.{name_length_at, profile_in};

// The bytes of a table from a place on, or none after its end.
fn record_at(table: &[u8], at: usize) -> &[u8]
    ensures { result.now ≡ drop at table.now }
{
    octets_part::part(table, at, table.len())
}

// Bytes of the tokens of the record at a place of a table, from one of them on.
fn token_part(table: &[u8], at: usize, from: usize, count: usize) -> &[u8]
    requires { from < 256 }
    ensures { result.now ≡ take count (drop from (drop (4 + name_length_at (drop at table.now)) (drop at table.now))) }
{
    let record = record_at(table, at);
    let n = octets_part::byte_at(record, 3) as usize;
    octets_part::part(record, 4 + n + from, count)
}

// The DES token of the profile whose record is at a place that `profile_table::find` gave; at any other place, what
// is there as if it were one.
pub fn des_token(table: &[u8], at: usize) -> &[u8]
    ensures { result.now ≡ stored_des (profile_in table.now at) }
{
    token_part(table, at, 0, 8)
}

// And its SHA-1 token.
pub fn sha_token(table: &[u8], at: usize) -> &[u8]
    ensures { result.now ≡ stored_sha (profile_in table.now at) }
{
    token_part(table, at, 8, 20)
}

// Whether its flags allow DES.
pub fn des_allowed(table: &[u8], at: usize) -> bool
    ensures { result ≡ des_allowed (profile_in table.now at) }
{
    let flags = octets_part::byte_at(record_at(table, at), 2);
    flags / 2 % 2 == 1
}

// Whether they enable it.
pub fn enabled(table: &[u8], at: usize) -> bool
    ensures { result ≡ is_enabled (profile_in table.now at) }
{
    let flags = octets_part::byte_at(record_at(table, at), 2);
    flags % 2 == 1
}
