// The calls of `export_profile`, for a caller in C: each is the function of that name there, with its promise.
ghost use Rattle.std.specs.Prelude.{◌≡◌};
ghost use Rattle.export_profile.specs.Numbers.{table_numbers, found_numbers};
ghost use Rattle.export.specs.Numbers.{numbered, written_numbers};
ghost use Rattle.names.specs.Name.{raised};
ghost use Rattle.profile.specs.Table.{table_of};
ghost use Rattle.profile_table.specs.Answer.{checked, found_in};
ghost use Rattle.profile_maker.specs.Made.{making};
ghost use Rattle.profile_maker.specs.Promise.{make_into};
ghost use Rattle.octets.specs.Lent.{outcome};

use export::TvWritten;
use export_profile::{TvFound, TvTable};

// How many profiles a table has. Refused by 30, 31 and 32.
#[unsafe(no_mangle)]
pub extern "C" fn tv_table_check(table: &[u8]) -> TvTable
    ensures { result ≡ table_numbers (checked (table_of table.now)) }
{
    export_profile::tv_table_check(table)
}

// The profile of a name, raised first. Refused as `tv_table_check`.
#[unsafe(no_mangle)]
pub extern "C" fn tv_table_find(table: &[u8], name: &[u8]) -> TvFound
    ensures { result ≡ found_numbers (found_in (raised name.now) (table_of table.now)) }
{
    export_profile::tv_table_find(table, name)
}

// Writes the record of a name and a password, with its two marks, to the front of `out`: 42 bytes are always enough.
// Refused by 33, 34 and 4.
#[unsafe(no_mangle)]
pub extern "C" fn tv_make_record(
    name: &[u8],
    password: &[u8],
    enabled: bool,
    des_allowed: bool,
    out: &mut [u8],
) -> TvWritten
    ensures { outcome result out.new
        ≡ numbered written_numbers (make_into (making name.now password.now enabled des_allowed) out.old) }
{
    export_profile::tv_make_record(name, password, enabled, des_allowed, out)
}
