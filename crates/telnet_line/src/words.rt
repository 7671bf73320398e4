// The text of a line: what it says is found by value, and its pieces are then put one after the other. Each function
// that puts a piece answers the place after it, and says how many bytes that can be at most: 20 for a numeral, 45 for
// what is said, 67 for a line.
ghost use Rattle.std.specs.Prelude.{◌≡◌, ◌++◌, ◌+◌, ◌≤◌, length};
ghost use Rattle.octets.specs.Ascii.{ascii};
ghost use Rattle.octets.specs.Decimal.{decimal};
ghost use Rattle.telnet_line.specs.Line.{said, verb_name, command_text, text, answer_text_by, line};
ghost use Rattle.telnet_line.specs.Internal.Phrase.{spaced, most, phrase_text, Short, IsPhrase};
ghost use Rattle.telnet_line.specs.Internal.Put.{Put};

use refusal::Numbered;
use telnet::{Kind, Verb};
use telnet_reader::Found;

// What a line says: a word, and up to two numbers after it.
#[derive(Clone, Copy)]
pub(crate) struct Phrase {
    word: &'static [u8],
    first: Option<u64>,
    second: Option<u64>,
}

fn verb_word(verb: Verb) -> &'static [u8]
    ensures { (result.now ≡ verb_name verb) × (length result.now ≤ 7) }
{
    match verb {
        Verb::Will => b"WILL",
        Verb::Wont => b"WONT",
        Verb::Do => b"DO",
        Verb::Dont => b"DONT",
    }
}

fn bare(word: &'static [u8]) -> Phrase
    requires { length word.now ≤ 7 }
    ensures { IsPhrase word.now result }
{
    Phrase {
        word,
        first: None,
        second: None,
    }
}

// A word and a number.
#[tactic(auto, unfolding(crate::specs::Line::said))]
fn with_number(word: &'static [u8], n: u64) -> Phrase
    requires { length word.now ≤ 7 }
    ensures { IsPhrase (said word.now n) result }
{
    Phrase {
        word,
        first: Some(n),
        second: None,
    }
}

#[tactic(auto, unfolding(crate::specs::Line::command_text))]
fn command_phrase(c: u8) -> Phrase
    ensures { IsPhrase (command_text c) result }
{
    if c == telnet::EOR {
        return bare(b"EOR");
    }
    with_number(b"CMD", c as u64)
}

#[tactic(auto, unfolding(crate::specs::Line::text, crate::specs::Line::said))]
fn kind_phrase(kind: Kind, length: usize) -> Phrase
    ensures { IsPhrase (text kind length) result }
{
    match kind {
        Kind::Data => with_number(b"DATA", length as u64),
        Kind::Command(c) => command_phrase(c),
        Kind::Negotiation(verb, option) => with_number(verb_word(verb), option as u64),
        Kind::Subnegotiation(option) => Phrase {
            word: b"SUB",
            first: Some(option as u64),
            second: Some(length as u64),
        },
    }
}

// What a line says of what is at a place.
#[tactic(auto, unfolding(crate::specs::Line::answer_text_by, crate::specs::Line::ending_text))]
pub(crate) fn answer_phrase<E: Numbered>(answer: Result<Option<Found>, E>) -> Phrase
    ensures { IsPhrase (answer_text_by E.number_of answer) result }
{
    match answer {
        Ok(Some(found)) => kind_phrase(found.kind, found.length),
        Ok(None) => bare(b"END"),
        Err(e) => with_number(b"REFUSED", e.told() as u64),
    }
}

fn put_number(n: u64, out: &mut [u8], at: usize) -> usize
    requires { at + 20 ≤ length out.old }
    ensures { Put (decimal n) 20 out.old at result out.new }
{
    octets::put_decimal(n, out, at);
    at + octets::decimal_length(n)
}

// A blank and a word.
fn put_word(word: &[u8], out: &mut [u8], at: usize) -> usize
    requires { (length word.now ≤ 7) × (at + (1 + length word.now) ≤ length out.old) }
    ensures { Put (ascii " " ++ word.now) (1 + length word.now) out.old at result out.new }
{
    out[at] = b' ';
    octets::put(word, out, at + 1);
    at + 1 + word.len()
}

// A blank and a number, if it is there.
fn put_spaced(number: Option<u64>, out: &mut [u8], at: usize) -> usize
    requires { at + most number ≤ length out.old }
    ensures { Put (spaced number) (most number) out.old at result out.new }
{
    let Some(n) = number else {
        return at;
    };
    out[at] = b' ';
    put_number(n, out, at + 1)
}

// A blank and a phrase.
fn put_phrase(phrase: Phrase, out: &mut [u8], at: usize) -> usize
    requires { Short phrase × (at + 46 ≤ length out.old) }
    ensures { Put (ascii " " ++ phrase_text phrase) 46 out.old at result out.new }
{
    let first = put_word(phrase.word, out, at);
    let second = put_spaced(phrase.first, out, first);
    put_spaced(phrase.second, out, second)
}

// The whole line, at the front.
pub(crate) fn compose(place: usize, phrase: Phrase, out: &mut [u8]) -> usize
    requires { Short phrase × (67 ≤ length out.old) }
    ensures { Put (line place (phrase_text phrase)) 67 out.old 0 result out.new }
{
    let first = put_number(place as u64, out, 0);
    let second = put_phrase(phrase, out, first);
    out[second] = b'\n';
    second + 1
}
