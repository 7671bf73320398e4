// What the exported functions share: the kind of an event as three numbers, the kind that three numbers name, what a
// writer answers, and marks. Which number stands for what is said in `specs/Numbers.antt`. The exports are in the
// crates `export_telnet`, `export_option` and their like.
#![tactic(auto)]

ghost use Rattle.std.specs.Prelude.{◌≡◌};
ghost use Rattle.export.specs.Numbers.{kind_numbers, verb_named, negotiation_named, kind_named, KindsNamed, mark, written_numbers_by};

use refusal::Numbered;
use telnet::{DO, DONT, Kind, Verb, WILL, WONT};

// The kind of an event. `what` is 1 for data, 2 for a command, 3 for a negotiation, 4 for a subnegotiation. `code` is
// the command, or 251 to 254 for WILL, WONT, DO and DONT. `option` is the option byte. What a kind does not have is 0.
#[derive(Clone, Copy)]
pub struct KindNumbers {
    pub what: u8,
    pub code: u8,
    pub option: u8,
}

// How many bytes were written to the front of a buffer. `refusal` is 0, or the number of a refusal with `length` 0.
#[repr(C)]
#[derive(Clone, Copy)]
pub struct TvWritten {
    pub refusal: u8,
    pub length: usize,
}

pub fn kind_numbers(kind: Kind) -> KindNumbers
    ensures { result ≡ kind_numbers kind }
{
    match kind {
        Kind::Data => KindNumbers {
            what: 1,
            code: 0,
            option: 0,
        },
        Kind::Command(c) => KindNumbers {
            what: 2,
            code: c,
            option: 0,
        },
        Kind::Negotiation(verb, option) => KindNumbers {
            what: 3,
            code: verb.code(),
            option,
        },
        Kind::Subnegotiation(option) => KindNumbers {
            what: 4,
            code: 0,
            option,
        },
    }
}

// The option command that a number names, if it names one.
#[tactic(auto, unfolding(crate::specs::Numbers::verb_named))]
pub fn verb_named(code: u8) -> Option<Verb>
    ensures { result ≡ verb_named code }
{
    match code {
        WILL => Some(Verb::Will),
        WONT => Some(Verb::Wont),
        DO => Some(Verb::Do),
        DONT => Some(Verb::Dont),
        _ => None,
    }
}

fn negotiation_named(code: u8, option: u8) -> Option<Kind>
    ensures { result ≡ negotiation_named (verb_named code) option }
{
    Some(Kind::Negotiation(verb_named(code)?, option))
}

// The kind of an event that three numbers name, if they name one.
#[tactic(auto, unfolding(crate::specs::Numbers::kind_named))]
pub fn kind_named(what: u8, code: u8, option: u8) -> Option<Kind>
    ensures { result ≡ kind_named what code option }
{
    match what {
        1 => Some(Kind::Data),
        2 => Some(Kind::Command(code)),
        3 => negotiation_named(code, option),
        4 => Some(Kind::Subnegotiation(option)),
        _ => None,
    }
}

// A yes or no as a number: 1 or 0.
pub fn mark(set: bool) -> u8
    ensures { result ≡ mark set }
{
    set as u8
}

// What a writer answers, as numbers; it may refuse by any number.
pub fn written_numbers<E: Numbered>(answer: Result<usize, E>) -> TvWritten
    ensures { result ≡ written_numbers_by E.number_of answer }
{
    match answer {
        Ok(length) => TvWritten { refusal: 0, length },
        Err(e) => TvWritten {
            refusal: e.told(),
            length: 0,
        },
    }
}

// Which kind numbers name.
pub fn kinds_named()
    ensures { KindsNamed }
{}
