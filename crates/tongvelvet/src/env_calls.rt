// The calls of `export_env`, for a caller in C: each is the function of that name there, with its promise.
ghost use Rattle.std.specs.Prelude.{◌≡◌};
ghost use Rattle.export_env.specs.Numbers.{read_out, read_numbers, place_numbers};
ghost use Rattle.export.specs.Numbers.{numbered, written_numbers};
ghost use Rattle.env_delivery.specs.Promise.{read_into};
ghost use Rattle.env_writer.specs.Promise.{write_into};
ghost use Rattle.env_search.specs.Places.{place_of};
ghost use Rattle.octets.specs.Lent.{outcome};

use export::TvWritten;
use export_env::{TvPayload, TvValue};

// Reads a payload of NEW-ENVIRON. Names and values go back to back into `bytes`, and the records of their variables
// into `numbers`; a variable without VALUE is undefined. Refused by 3, 20 to 25 and 4.
#[unsafe(no_mangle)]
pub extern "C" fn tv_env_read(payload: &[u8], bytes: &mut [u8], numbers: &mut [usize]) -> TvPayload
    ensures { read_out result bytes.new numbers.new
        ≡ read_numbers (read_into payload.now bytes.old numbers.old) }
{
    export_env::tv_env_read(payload, bytes, numbers)
}

// Writes a payload to the front of `out`: its first byte, and the variables that the records have over `bytes`, an
// undefined one without VALUE. Refused by 20, 27, 21, 24, 25, 3 and 4.
#[unsafe(no_mangle)]
pub extern "C" fn tv_env_write(
    first: u8,
    bytes: &[u8],
    numbers: &[usize],
    out: &mut [u8],
) -> TvWritten
    ensures { outcome result out.new
        ≡ numbered written_numbers (write_into first bytes.now numbers.now out.old) }
{
    export_env::tv_env_write(first, bytes, numbers, out)
}

// The place of the value of the first variable of a kind and name that is defined. The place is the record's own:
// records that `tv_env_read` set keep within `bytes`, others may not.
#[unsafe(no_mangle)]
pub extern "C" fn tv_env_value(bytes: &[u8], numbers: &[usize], kind: usize, name: &[u8]) -> TvValue
    ensures { result ≡ place_numbers (place_of kind name.now bytes.now numbers.now) }
{
    export_env::tv_env_value(bytes, numbers, kind, name)
}
