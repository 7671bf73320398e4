// The list of variable records over a slice of numbers, RECORD_WIDTH for each record.
#![tactic(auto)]

ghost use Rattle.std.specs.Prelude.{◌≡◌, ◌+◌, ◌*◌, leb};
ghost use Rattle.env_records.specs.Records.{record_at};
ghost use Rattle.env.specs.Numbers.{record_width, variable_record, numbers_of};
ghost use Rattle.octets.specs.Lent.{outcome};
ghost use Rattle.octets.specs.Promise.{put_at};

use env::{RECORD_WIDTH, VariableRecord};

// The record of a kind, of the places and lengths of a name and a value, and of a mark: what makes a record of numbers
// calls it.
pub fn record_of(
    kind: usize,
    name_at: usize,
    name_length: usize,
    value_at: usize,
    value_length: usize,
    mark: usize,
) -> VariableRecord
    ensures { result ≡ variable_record kind name_at name_length value_at value_length mark }
{
    VariableRecord {
        kind: kind,
        name_at: name_at,
        name_length: name_length,
        value_at: value_at,
        value_length: value_length,
        mark: mark,
    }
}

// Record i of a list; all zeros where the list has no such record.
pub fn record_at(numbers: &[usize], i: usize) -> VariableRecord
    ensures { result ≡ record_at numbers.now i }
{
    if i >= numbers.len() / RECORD_WIDTH {
        return record_of(0, 0, 0, 0, 0, 0);
    }
    let at = RECORD_WIDTH * i;
    record_of(
        numbers[at],
        numbers[at + 1],
        numbers[at + 2],
        numbers[at + 3],
        numbers[at + 4],
        numbers[at + 5],
    )
}

// Sets record i of a list; false, and nothing is set, where the list is too short.
pub fn set_record(numbers: &mut [usize], i: usize, v: VariableRecord) -> bool
    ensures { outcome result numbers.new ≡ put_at (numbers_of v) numbers.old (record_width * i) }
{
    if numbers.len() / RECORD_WIDTH <= i {
        return false;
    }
    let k = RECORD_WIDTH * i;
    numbers[k] = v.kind;
    numbers[k + 1] = v.name_at;
    numbers[k + 2] = v.name_length;
    numbers[k + 3] = v.value_at;
    numbers[k + 4] = v.value_length;
    numbers[k + 5] = v.mark;
    true
}

// Whether `n` bytes from `at` on end within `length`.
pub fn fits(length: usize, at: usize, n: usize) -> bool
    ensures { result ≡ leb (at + n) length }
{
    !octets::no_room(n, at, length)
}
