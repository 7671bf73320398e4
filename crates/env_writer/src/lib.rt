// Environment strings: writing a payload of NEW-ENVIRON. What is right is said in the crate `env`; what is answered,
// and left in the buffer, in `specs/Promise.antt`.
#![tactic(auto)]

ghost use Rattle.std.specs.Prelude.{◌≡◌, true, List, ℕ, ◌+◌, min, ◌≤◌, length};
ghost use Rattle.env.specs.Write.{escaped, written_value, written_variable, written_variables, nameless};
ghost use Rattle.env.specs.Numbers.{variable_of, variables_held, is_placed, placed};
ghost use Rattle.telnet.specs.Event.{payload_limit};
ghost use Rattle.octets.specs.Lent.{outcome, overwrite, IsPut};
ghost use Rattle.env_writer.specs.Promise.{write_into};
ghost use Rattle.env_writer.specs.Internal.Puts.{HasRoom};

use env::{
    DEFINED, ESC, PAYLOAD_LIMIT, RECORD_WIDTH, USERVAR, VALUE, VAR, VARIABLE_LIMIT, VariableRecord,
};
use refusal::Refusal;

// The length that says: past the limit.
const TOO_LONG: usize = PAYLOAD_LIMIT + 1;

// Whether a record is a VAR or a USERVAR, with its name and its value in the buffer, and without value bytes where it
// is undefined.
#[tactic(auto, unfolding(env::specs::Numbers::fits))]
fn is_placed(bytes: &[u8], v: VariableRecord) -> bool
    ensures { result ≡ is_placed bytes.now v }
{
    env_codes::is_kind(v.kind)
        && env_records::fits(bytes.len(), v.name_at, v.name_length)
        && env_records::fits(bytes.len(), v.value_at, v.value_length)
        && (v.mark == DEFINED || v.value_length == 0)
}

// Whether every record is.
fn all_placed(bytes: &[u8], numbers: &[usize]) -> bool
    ensures { result ≡ placed bytes.now numbers.now }
{
    for i in 0..numbers.len() / RECORD_WIDTH {
        if !is_placed(bytes, env_records::record_at(numbers, i)) {
            return false;
        }
    }
    true
}

// Whether a record has an empty name: over any buffer that holds all the names, so has its variable.
fn any_nameless(numbers: &[usize]) -> bool
    ensures { (bytes : List ℕ) → placed bytes numbers.now ≡ true → result ≡ nameless (variables_held bytes numbers.now) }
{
    for i in 0..numbers.len() / RECORD_WIDTH {
        let v = env_records::record_at(numbers, i);
        if v.name_length == 0 {
            return true;
        }
    }
    false
}

// A length with a name or a value after it; past the limit, one past it. Names and values may overlap in the buffer, so
// that the sum of all could wrap.
fn longer(n: usize, text: &[u8]) -> usize
    requires { n ≤ payload_limit + 2 }
    ensures { result ≡ min (payload_limit + 1) (n + length (escaped text.now)) }
{
    if PAYLOAD_LIMIT < text.len() {
        return TOO_LONG;
    }
    let m = n + octets_marked::marked_length(text, VAR, USERVAR);
    if PAYLOAD_LIMIT < m {
        return TOO_LONG;
    }
    m
}

// A length with the value of a record after it, counted likewise; an undefined one takes nothing.
fn longer_by_value(n: usize, bytes: &[u8], v: VariableRecord) -> usize
    requires { (n ≤ payload_limit + 1) × (is_placed bytes.now v ≡ true) }
    ensures { result ≡ min (payload_limit + 1) (n + length (written_value (variable_of bytes.now v).value)) }
{
    if v.mark != DEFINED {
        return n;
    }
    let value = v.value_at;
    let value_end = value + v.value_length;
    longer(n + 1, &bytes[value..value_end])
}

// A length with a variable after it, counted likewise.
fn longer_by_variable(n: usize, bytes: &[u8], v: VariableRecord) -> usize
    requires { (n ≤ payload_limit + 1) × (is_placed bytes.now v ≡ true) }
    ensures { result ≡ min (payload_limit + 1) (n + length (written_variable (variable_of bytes.now v))) }
{
    let name = v.name_at;
    let name_end = name + v.name_length;
    let with_name = longer(n + 1, &bytes[name..name_end]);
    longer_by_value(with_name, bytes, v)
}

// The length of the payload, counted likewise, and no further once it is past the limit.
fn measure(bytes: &[u8], numbers: &[usize]) -> usize
    requires { placed bytes.now numbers.now ≡ true }
    ensures { result ≡ min (payload_limit + 1) (1 + length (written_variables (variables_held bytes.now numbers.now))) }
{
    let mut n = 1;
    for i in 0..numbers.len() / RECORD_WIDTH {
        if PAYLOAD_LIMIT < n {
            return n;
        }
        n = longer_by_variable(n, bytes, env_records::record_at(numbers, i));
    }
    n
}

// Puts the value of a record at a place, after VALUE, and nothing where it is undefined; the answer is the place after
// it.
fn put_value(bytes: &[u8], v: VariableRecord, out: &mut [u8], at: usize) -> usize
    requires { (is_placed bytes.now v ≡ true) × (at + length (written_value (variable_of bytes.now v).value) ≤ length out.old) }
    ensures { IsPut (written_value (variable_of bytes.now v).value) out.old at result out.new }
{
    if v.mark != DEFINED {
        return at;
    }
    let value = v.value_at;
    let value_end = value + v.value_length;
    out[at] = VALUE;
    octets_marked::put_marked(&bytes[value..value_end], ESC, VAR, USERVAR, out, at + 1)
}

// Puts a variable at a place; the answer is the place after it.
fn put_variable(bytes: &[u8], v: VariableRecord, out: &mut [u8], at: usize) -> usize
    requires { (is_placed bytes.now v ≡ true) × (at + length (written_variable (variable_of bytes.now v)) ≤ length out.old) }
    ensures { IsPut (written_variable (variable_of bytes.now v)) out.old at result out.new }
{
    let name = v.name_at;
    let name_end = name + v.name_length;
    out[at] = v.kind as u8;
    let k = octets_marked::put_marked(&bytes[name..name_end], ESC, VAR, USERVAR, out, at + 1);
    put_value(bytes, v, out, k)
}

// Puts the variables after the first byte.
fn put_all(bytes: &[u8], numbers: &[usize], out: &mut [u8])
    requires { HasRoom bytes.now numbers.now out.old }
    ensures { out.new ≡ overwrite out.old 1 (written_variables (variables_held bytes.now numbers.now)) }
{
    let mut at = 1;
    for i in 0..numbers.len() / RECORD_WIDTH {
        at = put_variable(bytes, env_records::record_at(numbers, i), out, at);
    }
}

// Writes a first byte, and the variables that records have over `bytes`, to the front of `out`. A refusal leaves `out`
// as it was.
pub fn write(first: u8, bytes: &[u8], numbers: &[usize], out: &mut [u8]) -> Result<usize, Refusal>
    ensures { outcome result out.new ≡ write_into first bytes.now numbers.now out.old }
{
    if !env_codes::is_first(first) {
        return Err(Refusal::NotIsOrInfo);
    }
    if !all_placed(bytes, numbers) {
        return Err(Refusal::BadVariableRecord);
    }
    if any_nameless(numbers) {
        return Err(Refusal::NoVariable);
    }
    if VARIABLE_LIMIT < numbers.len() / RECORD_WIDTH {
        return Err(Refusal::TooManyVariables);
    }
    if env_search::repeats(bytes, numbers) {
        return Err(Refusal::RepeatedVariable);
    }
    let length = measure(bytes, numbers);
    if PAYLOAD_LIMIT < length {
        return Err(Refusal::PayloadTooLong);
    }
    if out.len() < length {
        return Err(Refusal::NoRoom);
    }
    out[0] = first;
    put_all(bytes, numbers, out);
    Ok(length)
}
