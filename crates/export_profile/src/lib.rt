// The profile table and the token maker, for a caller in C. Each function answers with numbers: which number stands for
// what is said at the structs and in `specs/Numbers.antt`. A `refusal` is 0 where there is none; else it is the
// refusal's number, and every other field is 0. A slice is a pointer and a length.
#![tactic(auto)]

ghost use Rattle.std.specs.Prelude.{◌≡◌};
ghost use Rattle.export_profile.specs.Numbers.{table_numbers, no_profile, found_numbers};
ghost use Rattle.export.specs.Numbers.{numbered, written_numbers};
ghost use Rattle.names.specs.Name.{raised};
ghost use Rattle.profile.specs.Table.{table_of};
ghost use Rattle.profile_table.specs.Answer.{checked, found_in};
ghost use Rattle.profile_maker.specs.Made.{making};
ghost use Rattle.profile_maker.specs.Promise.{make_into};
ghost use Rattle.octets.specs.Lent.{outcome};

use export::{TvWritten, mark};
use profile_table::Entry;
use refusal::Refusal;

// How many profiles a table has.
#[repr(C)]
#[derive(Clone, Copy)]
pub struct TvTable {
    pub refusal: u8,
    pub profiles: usize,
}

// The profile of a name. `present` is 1, with its two marks, 1 or 0, and the place of its record in the table; or 0
// where the table has none, with the others 0.
#[repr(C)]
#[derive(Clone, Copy)]
pub struct TvFound {
    pub refusal: u8,
    pub present: u8,
    pub enabled: u8,
    pub des_allowed: u8,
    pub at: usize,
}

fn table_numbers(answer: Result<usize, Refusal>) -> TvTable
    ensures { result ≡ table_numbers answer }
{
    match answer {
        Ok(profiles) => TvTable {
            refusal: 0,
            profiles,
        },
        Err(e) => TvTable {
            refusal: e.number(),
            profiles: 0,
        },
    }
}

fn no_profile(refusal: u8) -> TvFound
    ensures { result ≡ no_profile refusal }
{
    TvFound {
        refusal,
        present: 0,
        enabled: 0,
        des_allowed: 0,
        at: 0,
    }
}

fn found_numbers(answer: Result<Option<Entry>, Refusal>) -> TvFound
    ensures { result ≡ found_numbers answer }
{
    match answer {
        Ok(Some(entry)) => TvFound {
            refusal: 0,
            present: 1,
            enabled: mark(entry.enabled),
            des_allowed: mark(entry.des_allowed),
            at: entry.at,
        },
        Ok(None) => no_profile(0),
        Err(e) => no_profile(e.number()),
    }
}

// How many profiles a table has. Refused by 30, 31 and 32.
pub fn tv_table_check(table: &[u8]) -> TvTable
    ensures { result ≡ table_numbers (checked (table_of table.now)) }
{
    table_numbers(profile_table::check(table))
}

// The profile of a name, raised first. Refused as `tv_table_check`.
pub fn tv_table_find(table: &[u8], name: &[u8]) -> TvFound
    ensures { result ≡ found_numbers (found_in (raised name.now) (table_of table.now)) }
{
    found_numbers(profile_table::find(table, name))
}

// Writes the record of a name and a password, with its two marks, to the front of `out`: 42 bytes are always enough.
// Refused by 33, 34 and 4.
pub fn tv_make_record(
    name: &[u8],
    password: &[u8],
    enabled: bool,
    des_allowed: bool,
    out: &mut [u8],
) -> TvWritten
    ensures { outcome result out.new
        ≡ numbered written_numbers (make_into (making name.now password.now enabled des_allowed) out.old) }
{
    export::written_numbers(profile_maker::make_record(name, password, enabled, des_allowed, out))
}
