// A record of a profile table, by the table's version, and the step from one record to the next, which every walk over
// a table takes. What a record is, is said in the crate `profile`; what a step answers, in `specs/Step.antt`.
#![tactic(auto)]

ghost use Rattle.std.specs.Prelude.{◌≡◌, ◌+◌, ◌^◌};
ghost use Rattle.profile.specs.Profile.{shape_of, record_length};
ghost use Rattle.profile.specs.Table.{is_record};
ghost use Rattle.profile_record.specs.Step.{step_of};

use profile::PROFILE_COUNT;
use refusal::Refusal;

// How long a record of a version is besides its name.
pub fn record_length(version: u8) -> usize
    ensures { result ≡ record_length (shape_of version) 0 }
{
    32
}

// The highest flags that have no bit besides those of a version.
fn highest_flags(version: u8) -> u8
    ensures { result + 1 ≡ 2 ^ (shape_of version).marks }
{
    3
}

// Whether a well-formed record of a version is at the front of bytes.
pub fn is_record(version: u8, bytes: &[u8]) -> bool
    ensures { result ≡ is_record (shape_of version) bytes.now }
{
    let fixed = record_length(version);
    let highest = highest_flags(version);
    let n = octets_part::byte_at(bytes, 3) as usize;
    if bytes.len() < fixed + n {
        return false;
    }
    if usize::from(u16::from_be_bytes([bytes[0], bytes[1]])) != fixed - 2 + n {
        return false;
    }
    if highest < bytes[2] {
        return false;
    }
    names_order::is_raised_name(&bytes[4..4 + n], names::PROFILE_LIMIT)
}

// The record at the front of bytes, by the length of its name, after `count` profiles, the last of which has the name
// `before`: 31 where there is none, or 32 where it is one too many or its name does not come after that one.
pub fn next_record(version: u8, bytes: &[u8], before: &[u8], count: usize) -> Result<usize, Refusal>
    ensures { result ≡ step_of (shape_of version) count before.now bytes.now }
{
    if !is_record(version, bytes) {
        return Err(Refusal::BadProfile);
    }
    if PROFILE_COUNT <= count {
        return Err(Refusal::ProfilesNotAscending);
    }
    let n = octets_part::byte_at(bytes, 3) as usize;
    if !names_order::precedes(before, &bytes[4..4 + n]) {
        return Err(Refusal::ProfilesNotAscending);
    }
    Ok(n)
}
