// The search in a list of variable records: the value of a kind and name, and whether a kind and name repeats.
#![tactic(auto)]

ghost use Rattle.std.specs.Prelude.{◌≡◌, [], ◌+◌, ◌*◌, ◌/◌, ◌<◌, length, drop};
ghost use Rattle.env_search.specs.Places.{is_defined_of, place_of};
ghost use Rattle.env_records.specs.Records.{record_at};
ghost use Rattle.env.specs.Variable.{is, among, repeated, lookup, value_or};
ghost use Rattle.env.specs.Numbers.{record_width, variable_of, variables_held};

use env::{DEFINED, RECORD_WIDTH, VariableRecord};
use env_records::record_at;

// The place of a value in a buffer, and its length.
#[derive(Clone, Copy)]
pub struct ValuePlace {
    pub at: usize,
    pub length: usize,
}

// Whether a record is of a kind and name.
#[tactic(auto, unfolding(env::specs::Variable::is))]
fn is_of(bytes: &[u8], v: VariableRecord, kind: usize, name: &[u8]) -> bool
    ensures { result ≡ is kind name.now (variable_of bytes.now v) }
{
    kind == v.kind && octets::same(name, octets_part::part(bytes, v.name_at, v.name_length))
}

// Whether a record is of a kind and name, and defined.
#[tactic(auto, unfolding(crate::specs::Places::is_defined_of))]
fn is_defined_of(bytes: &[u8], v: VariableRecord, kind: usize, name: &[u8]) -> bool
    ensures { result ≡ is_defined_of kind name.now bytes.now v }
{
    v.mark == DEFINED && is_of(bytes, v, kind, name)
}

// The place of the value of the first record of a kind and name that is defined.
pub fn find(bytes: &[u8], numbers: &[usize], kind: usize, name: &[u8]) -> Option<ValuePlace>
    ensures { result ≡ place_of kind name.now bytes.now numbers.now }
{
    for i in 0..numbers.len() / RECORD_WIDTH {
        let v = record_at(numbers, i);
        if is_defined_of(bytes, v, kind, name) {
            return Some(ValuePlace {
                at: v.value_at,
                length: v.value_length,
            });
        }
    }
    None
}

// The value of the first record of a kind and name that is defined; empty where there is none, which `find` tells apart
// from an empty value.
pub fn value_of<'a>(bytes: &'a [u8], numbers: &[usize], kind: usize, name: &[u8]) -> &'a [u8]
    ensures { result.now ≡ value_or [] (lookup kind name.now (variables_held bytes.now numbers.now)) }
{
    match find(bytes, numbers, kind, name) {
        None => octets_part::part(bytes, 0, 0),
        Some(place) => octets_part::part(bytes, place.at, place.length),
    }
}

// Whether one of the records from record `from` on is of a kind and name, defined or not.
fn occurs(bytes: &[u8], numbers: &[usize], from: usize, kind: usize, name: &[u8]) -> bool
    ensures { result ≡ among kind name.now (variables_held bytes.now (drop (record_width * from) numbers.now)) }
{
    for i in from..numbers.len() / RECORD_WIDTH {
        if is_of(bytes, record_at(numbers, i), kind, name) {
            return true;
        }
    }
    false
}

// Whether a record after record i is of the same kind and name, defined or not.
fn occurs_after(bytes: &[u8], numbers: &[usize], i: usize) -> bool
    requires { i < length numbers.now / record_width }
    ensures { let v = variable_of bytes.now (record_at numbers.now i) in
        result ≡ among v.kind v.name (variables_held bytes.now (drop (record_width * (i + 1)) numbers.now)) }
{
    let v = record_at(numbers, i);
    let name = octets_part::part(bytes, v.name_at, v.name_length);
    occurs(bytes, numbers, i + 1, v.kind, name)
}

// Whether two records are of the same kind and name, defined or not.
pub fn repeats(bytes: &[u8], numbers: &[usize]) -> bool
    ensures { result ≡ repeated (variables_held bytes.now numbers.now) }
{
    for i in 0..numbers.len() / RECORD_WIDTH {
        if occurs_after(bytes, numbers, i) {
            return true;
        }
    }
    false
}
