// The lent list of variable records as a slice of structs.
#![tactic(auto)]

ghost use Rattle.std.specs.Prelude.{◌≡◌, ◌++◌, ◌≤◌, length, drop, get_or};
ghost use Rattle.env_list.specs.Internal.Firsts.{first_records, Numbered};
ghost use Rattle.env_records.specs.Records.{blank};
ghost use Rattle.env_list.specs.Lists.{listing, set_at};
ghost use Rattle.env_list.specs.Reading.{read_records};
ghost use Rattle.env.specs.Numbers.{list_limit};
ghost use Rattle.octets.specs.Lent.{outcome};

use env::{LIST_LIMIT, RECORD_WIDTH, VARIABLE_LIMIT, VariableRecord};
use env_delivery::Payload;
use env_reader::read;
use env_records::record_at;
use refusal::Refusal;

// Record i of a list; all zeros where the list has no such record.
pub fn get(records: &[VariableRecord], i: usize) -> VariableRecord
    ensures { result ≡ get_or records.now i blank }
{
    match records.get(i) {
        Some(v) => *v,
        None => VariableRecord {
            kind: 0,
            name_at: 0,
            name_length: 0,
            value_at: 0,
            value_length: 0,
            mark: 0,
        },
    }
}

// Sets record i of a list; false, and nothing is set, where the list has no such record.
pub fn set(records: &mut [VariableRecord], i: usize, v: VariableRecord) -> bool
    ensures { listing result records.new ≡ set_at records.old i v }
{
    if i < records.len() {
        records[i] = v;
        return true;
    }
    false
}

// Sets the first n records of a list to those that numbers hold.
fn set_all(records: &mut [VariableRecord], numbers: &[usize], n: usize)
    requires { n ≤ length records.old }
    ensures { records.new ≡ first_records numbers.now n ++ drop n records.old }
{
    for k in 0..n {
        records[k] = record_at(numbers, k);
    }
}

// Reads a payload with the numbers of as many records as a list has room for; a payload has no more variables than the
// limit.
fn read_numbers(
    payload: &[u8],
    bytes: &mut [u8],
    numbers: &mut [usize],
    room: usize,
) -> Result<Payload, Refusal>
    requires { length numbers.old ≡ list_limit }
    ensures { Numbered payload.now bytes.old room result bytes.new numbers.new }
{
    if room < VARIABLE_LIMIT {
        return read(payload, bytes, &mut numbers[0..RECORD_WIDTH * room]);
    }
    read(payload, bytes, numbers)
}

// Reads a payload: names and values go into the buffer, and a record for each variable in front of the list.
pub fn read_records(
    payload: &[u8],
    bytes: &mut [u8],
    records: &mut [VariableRecord],
) -> Result<Payload, Refusal>
    ensures { listing (outcome result bytes.new) records.new ≡ read_records payload.now bytes.old records.old }
{
    let mut numbers = [0usize; LIST_LIMIT];
    let read = read_numbers(payload, bytes, &mut numbers, records.len())?;
    set_all(records, &numbers, read.count);
    Ok(read)
}
