// Environment strings, for a caller in C. Each function answers with numbers: which number stands for what is said at
// the structs and in `specs/Numbers.antt`. A `refusal` is 0 where there is none; else it is the refusal's number, and
// every other field is 0. A slice is a pointer and a length. A list of variable records is a slice of numbers,
// RECORD_WIDTH for each: its kind (0 VAR, 3 USERVAR), the place and the length of its name in a buffer, the place and
// the length of its value there, and its mark (0 defined, 1 undefined; any but 0 reads as undefined).
#![tactic(auto)]

ghost use Rattle.std.specs.Prelude.{◌≡◌};
ghost use Rattle.export_env.specs.Numbers.{payload_numbers, read_out, read_numbers, place_numbers};
ghost use Rattle.export.specs.Numbers.{numbered, written_numbers};
ghost use Rattle.env_delivery.specs.Promise.{read_into};
ghost use Rattle.env_writer.specs.Promise.{write_into};
ghost use Rattle.env_search.specs.Places.{place_of};
ghost use Rattle.octets.specs.Lent.{outcome};

use env_delivery::Payload;
use env_search::ValuePlace;
use export::TvWritten;
use refusal::Refusal;

// A payload that was read: its first byte (0 IS, 2 INFO), how many variables it has, and how many bytes their names and
// values take.
#[repr(C)]
#[derive(Clone, Copy, Default)]
pub struct TvPayload {
    pub refusal: u8,
    pub first: u8,
    pub variables: usize,
    pub bytes: usize,
}

// The place of a value in a buffer. `present` is 1, or 0 with the others 0, for an undefined variable too.
#[repr(C)]
#[derive(Clone, Copy, Default)]
pub struct TvValue {
    pub present: u8,
    pub at: usize,
    pub length: usize,
}

fn payload_numbers(answer: Result<Payload, Refusal>) -> TvPayload
    ensures { result ≡ payload_numbers answer }
{
    match answer {
        Ok(payload) => TvPayload {
            refusal: 0,
            first: payload.first,
            variables: payload.count,
            bytes: payload.used,
        },
        Err(e) => TvPayload {
            refusal: e.number(),
            ..TvPayload::default()
        },
    }
}

fn place_numbers(place: Option<ValuePlace>) -> TvValue
    ensures { result ≡ place_numbers place }
{
    match place {
        None => TvValue::default(),
        Some(ValuePlace { at, length }) => TvValue {
            present: 1,
            at,
            length,
        },
    }
}

// Reads a payload of NEW-ENVIRON. Names and values go back to back into `bytes`, and the records of their variables
// into `numbers`; a variable without VALUE is undefined. Refused by 3, 20 to 25 and 4.
pub fn tv_env_read(payload: &[u8], bytes: &mut [u8], numbers: &mut [usize]) -> TvPayload
    ensures { read_out result bytes.new numbers.new
        ≡ read_numbers (read_into payload.now bytes.old numbers.old) }
{
    payload_numbers(env_reader::read(payload, bytes, numbers))
}

// Writes a payload to the front of `out`: its first byte, and the variables that the records have over `bytes`, an
// undefined one without VALUE. Refused by 20, 27, 21, 24, 25, 3 and 4.
pub fn tv_env_write(first: u8, bytes: &[u8], numbers: &[usize], out: &mut [u8]) -> TvWritten
    ensures { outcome result out.new
        ≡ numbered written_numbers (write_into first bytes.now numbers.now out.old) }
{
    export::written_numbers(env_writer::write(first, bytes, numbers, out))
}

// The place of the value of the first variable of a kind and name that is defined. The place is the record's own:
// records that `tv_env_read` set keep within `bytes`, others may not.
pub fn tv_env_value(bytes: &[u8], numbers: &[usize], kind: usize, name: &[u8]) -> TvValue
    ensures { result ≡ place_numbers (place_of kind name.now bytes.now numbers.now) }
{
    place_numbers(env_search::find(bytes, numbers, kind, name))
}
