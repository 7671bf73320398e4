// Environment strings: reading the variables of a payload of NEW-ENVIRON. What is right is said in the crate `env`;
// what is answered, and left in buffer and list, in the crate `env_delivery`. A name gives way to its value and a value
// to the next name: the two readers call each other, each on the part of the payload that is left. They fill a buffer
// and a list of the reader's own; what is lent is touched only when nothing can be refused any more.
#![tactic(auto)]

ghost use Rattle.std.specs.Prelude.{true, ◌≡◌, ◌+◌, ◌*◌, ◌≤◌, ◌<◌, length};
ghost use Rattle.env_variables.specs.Internal.Found.{buffers, NameRead};
ghost use Rattle.env_variables.specs.Internal.Texts.{gives_value, mark_at, IsTaken};
ghost use Rattle.env_variables.specs.Internal.Turns.{from_name, from_value, HasRoom, IsValue, ValueRead};
ghost use Rattle.env_text.specs.Text.{ends_text};
ghost use Rattle.env.specs.Variable.{is_kind, variable_limit};
ghost use Rattle.env.specs.Numbers.{record_width, variable_record, numbers_of, list_limit};
ghost use Rattle.telnet.specs.Event.{payload_limit};
ghost use Rattle.env.specs.Fields.{row_of};
ghost use Rattle.env.specs.Read.{variables_of};
ghost use Rattle.octets.specs.Lent.{overwrite};
ghost use Rattle.env_delivery.specs.Promise.{delivery, read_after};

use env::{DEFINED, LIST_LIMIT, PAYLOAD_LIMIT, RECORD_WIDTH, UNDEFINED, VALUE, VARIABLE_LIMIT};
use env_codes::is_kind;
use env_delivery::{Payload, deliver};
use env_records::{record_of, set_record};
use env_text::{Text, copy_text, text_at};
use refusal::Refusal;

// How far the variables of a payload have been read: how many they are, and the bytes that they take.
#[derive(Clone, Copy)]
pub struct Held {
    pub count: usize,
    pub used: usize,
}

// Whether a byte opens a variable.
fn opens(b: u8) -> bool
    ensures { result ≡ is_kind b }
{
    is_kind(b as usize)
}

// Whether a VALUE is at the front.
fn gives_value(rest: &[u8]) -> bool
    ensures { result ≡ gives_value rest.now }
{
    if rest.len() == 0 {
        return false;
    }
    rest[0] == VALUE
}

// Puts the text after the first byte at a place of the buffer.
fn take_text(rest: &[u8], bytes: &mut [u8], at: usize) -> Text
    requires { (0 < length rest.now) × (at + length rest.now ≤ length bytes.old) }
    ensures { IsTaken rest.now bytes.old at result bytes.new }
{
    let t = text_at(rest, 1);
    copy_text(rest, 1, t.length, bytes, at);
    t
}

// The mark of the value after a name: undefined where there is no VALUE.
fn mark_at(rest: &[u8]) -> usize
    ensures { result ≡ mark_at rest.now }
{
    if gives_value(rest) {
        return DEFINED;
    }
    UNDEFINED
}

// Puts the value after a name at a place of the buffer; where there is no VALUE, it has no bytes and takes nothing of
// the rest.
fn take_value(rest: &[u8], bytes: &mut [u8], at: usize) -> Text
    requires { (ends_text rest.now ≡ true) × (at + length rest.now ≤ length bytes.old) }
    ensures { IsValue rest.now bytes.old at result bytes.new }
{
    if !gives_value(rest) {
        return Text {
            whole: true,
            length: 0,
            end: 0,
        };
    }
    take_text(rest, bytes, at)
}

// Sets record k: a name of n bytes, and m bytes of its value after it, with the value's mark.
fn store(numbers: &mut [usize], k: usize, kind: u8, at: usize, n: usize, m: usize, mark: usize)
    requires { (k < variable_limit) × (list_limit ≤ length numbers.old) × (at + n ≤ payload_limit) }
    ensures { numbers.new ≡ overwrite numbers.old (record_width * k) (numbers_of (variable_record kind at n (at + n) m mark)) }
{
    set_record(numbers, k, record_of(kind as usize, at, n, at + n, m, mark));
}

// A name is expected, or nothing. A VALUE in its place is the fault that is given.
#[cycle(name_value)]
fn name(
    rest: &[u8],
    fault: Refusal,
    bytes: &mut [u8],
    at: usize,
    numbers: &mut [usize],
    k: usize,
) -> Result<Held, Refusal>
    requires { HasRoom rest.now at k (buffers bytes.old numbers.old) }
    ensures { NameRead (from_name fault k (row_of rest.now)) at k
        (buffers bytes.old numbers.old) result (buffers bytes.new numbers.new) }
{
    if rest.len() == 0 {
        return Ok(Held { count: k, used: at });
    }
    let kind = rest[0];
    if kind == VALUE {
        return Err(fault);
    }
    if !opens(kind) {
        return Err(Refusal::NoVariable);
    }
    if k == VARIABLE_LIMIT {
        return Err(Refusal::TooManyVariables);
    }
    let t = take_text(rest, bytes, at);
    if !t.whole {
        return Err(Refusal::BadEscape);
    }
    if t.length == 0 {
        return Err(Refusal::NoVariable);
    }
    let end = t.end;
    value(&rest[end..], kind, bytes, at, t.length, numbers, k)
}

// The value of a name that has been read. After a value a VALUE is a fault; after a name without one it cannot be what
// comes next.
#[cycle(name_value)]
fn value(
    rest: &[u8],
    kind: u8,
    bytes: &mut [u8],
    at: usize,
    n: usize,
    numbers: &mut [usize],
    k: usize,
) -> Result<Held, Refusal>
    requires { HasRoom rest.now (at + n) (k + 1) (buffers bytes.old numbers.old) × (ends_text rest.now ≡ true) }
    ensures { ValueRead (from_value k (row_of rest.now).fields) kind at n k
        (buffers bytes.old numbers.old) result (buffers bytes.new numbers.new) }
{
    let place = at + n;
    let t = take_value(rest, bytes, place);
    if !t.whole {
        return Err(Refusal::BadEscape);
    }
    store(numbers, k, kind, at, n, t.length, mark_at(rest));
    let end = t.end;
    name(
        &rest[end..],
        Refusal::ValueInValue,
        bytes,
        place + t.length,
        numbers,
        k + 1,
    )
}

// Finds the variables of what comes after the first byte of a payload. Names and values without their ESCs go back to
// back into the buffer, and their records into the list: room for as many as a payload can hold.
fn find_variables(
    rest: &[u8],
    texts: &mut [u8; PAYLOAD_LIMIT],
    records: &mut [usize; LIST_LIMIT],
) -> Result<Held, Refusal>
    requires { length rest.now ≤ payload_limit }
    ensures { NameRead (variables_of (row_of rest.now)) 0 0
        (buffers texts.old records.old) result (buffers texts.new records.new) }
{
    name(rest, Refusal::NoVariable, texts, 0, records, 0)
}

// Reads what comes after the first byte of a payload, and delivers its variables. Names and values without their ESCs
// go back to back into the buffer, and their records into the list, when nothing can be refused any more.
pub fn read_variables(
    first: u8,
    rest: &[u8],
    bytes: &mut [u8],
    numbers: &mut [usize],
) -> Result<Payload, Refusal>
    ensures { delivery result bytes.new numbers.new
        ≡ read_after first rest.now bytes.old numbers.old }
{
    if PAYLOAD_LIMIT <= rest.len() {
        return Err(Refusal::PayloadTooLong);
    }
    let mut texts = [0u8; PAYLOAD_LIMIT];
    let mut records = [0usize; LIST_LIMIT];
    let held = find_variables(rest, &mut texts, &mut records)?;
    deliver(
        first,
        &texts[0..held.used],
        &records[0..RECORD_WIDTH * held.count],
        bytes,
        numbers,
    )
}
