// The ten sides of a session, for a caller in C. States and answers are numbers: which number stands for what is said
// at the structs and in `specs/Numbers.antt`. The caller keeps the sides and hands them in with each call.
#![tactic(auto)]

ghost use Rattle.std.specs.Prelude.{◌≡◌};
ghost use Rattle.export_option.specs.Numbers.{side_number, side_named, pair_numbers, pair_named, sides_numbers, sides_named, whose_named, command_named};
ghost use Rattle.export_option.specs.Numbers.{handed_back, silent, answered_numbers, receive_named, sent_numbers, receive_on_named, SidesNamed};
ghost use Rattle.export.specs.Numbers.{numbered, verb_named};
ghost use Rattle.octets.specs.Lent.{outcome};
ghost use Rattle.option_line.specs.Line.{requested_on, heard_on};
ghost use Rattle.option_sides.specs.Session.{all_off, requested};
ghost use Rattle.refusal.specs.RefusedBy.{number_or_0};

use option_line::Sent;
use option_rules::{Command, Side};
use option_sides::{Answered, Pair, Sides};
use option_verbs::{Outgoing, Whose};
use refusal::{Refusal, number_or_0};

// The two sides of one option, each by its state: 0 off, 1 on, 2 want off, 3 want off then on, 4 want on, 5 want on
// then off. A number above 5 reads as off.
#[repr(C)]
#[derive(Clone, Copy)]
pub struct TvPair {
    pub ours: u8,
    pub other: u8,
}

// The ten sides of a session, by option: 0, 3, 24, 25 and 39.
#[repr(C)]
#[derive(Clone, Copy)]
pub struct TvSides {
    pub binary: TvPair,
    pub suppress_go_ahead: TvPair,
    pub terminal: TvPair,
    pub records: TvPair,
    pub environ: TvPair,
}

// The sides after a call, and `number`, a refusal, a note (14) or 0. `writes` is 1 where an option command is to be
// sent, with its `code` (251 to 254 for WILL, WONT, DO and DONT) and its `option`; else the three are 0. A refusal
// hands back the sides by the numbers that were given.
#[repr(C)]
#[derive(Clone, Copy)]
pub struct TvAnswered {
    pub sides: TvSides,
    pub number: u8,
    pub writes: u8,
    pub code: u8,
    pub option: u8,
}

// The sides after a step whose command went on a line, `number` as above, and the place after what was put there. A
// refusal hands back sides and place as they were given.
#[repr(C)]
#[derive(Clone, Copy)]
pub struct TvSent {
    pub sides: TvSides,
    pub number: u8,
    pub place: usize,
}

// The states stand in their type in the order of their numbers.
fn side_number(side: Side) -> u8
    ensures { result ≡ side_number side }
{
    side as u8
}

#[tactic(auto, unfolding(crate::specs::Numbers::side_named))]
fn side_named(number: u8) -> Side
    ensures { result ≡ side_named number }
{
    match number {
        1 => Side::On,
        2 => Side::WantOff,
        3 => Side::WantOffThenOn,
        4 => Side::WantOn,
        5 => Side::WantOnThenOff,
        _ => Side::Off,
    }
}

impl From<Pair> for TvPair {
    ghost from_gives = { λ pair numbers. numbers ≡ pair_numbers pair };

    fn from(pair: Pair) -> TvPair {
        TvPair {
            ours: side_number(pair.ours),
            other: side_number(pair.other),
        }
    }
}

impl From<TvPair> for Pair {
    ghost from_gives = { λ numbers pair. pair ≡ pair_named numbers };

    fn from(pair: TvPair) -> Pair {
        Pair {
            ours: side_named(pair.ours),
            other: side_named(pair.other),
        }
    }
}

impl From<Sides> for TvSides {
    ghost from_gives = { λ sides numbers. numbers ≡ sides_numbers sides };

    fn from(sides: Sides) -> TvSides {
        TvSides {
            binary: sides.binary.into(),
            suppress_go_ahead: sides.suppress_go_ahead.into(),
            terminal: sides.terminal.into(),
            records: sides.records.into(),
            environ: sides.environ.into(),
        }
    }
}

impl From<TvSides> for Sides {
    ghost from_gives = { λ numbers sides. sides ≡ sides_named numbers };

    fn from(sides: TvSides) -> Sides {
        Sides {
            binary: sides.binary.into(),
            suppress_go_ahead: sides.suppress_go_ahead.into(),
            terminal: sides.terminal.into(),
            records: sides.records.into(),
            environ: sides.environ.into(),
        }
    }
}

// A refusal hands back what was given; the note `OffAnsweredByOn` is no refusal.
#[tactic(auto, unfolding(crate::specs::Numbers::is_refusal, crate::specs::Numbers::handed_back))]
fn handed_back(given: TvSides, refusal: Option<Refusal>, sides: Sides) -> TvSides
    ensures { result ≡ handed_back given (number_or_0 refusal) sides }
{
    match refusal {
        None | Some(Refusal::OffAnsweredByOn) => sides.into(),
        Some(_) => given,
    }
}

fn silent(sides: TvSides, number: u8) -> TvAnswered
    ensures { result ≡ silent sides number }
{
    TvAnswered {
        sides,
        number,
        writes: 0,
        code: 0,
        option: 0,
    }
}

fn answered_numbers(given: TvSides, answer: Answered) -> TvAnswered
    ensures { result ≡ answered_numbers given answer }
{
    let number = number_or_0(answer.refusal);
    let sides = handed_back(given, answer.refusal, answer.sides);
    match answer.writes {
        None => silent(sides, number),
        Some(Outgoing { verb, option }) => TvAnswered {
            sides,
            number,
            writes: 1,
            code: verb.code(),
            option,
        },
    }
}

fn sent_numbers(given: TvSides, sent: Sent) -> TvSent
    ensures { result ≡ sent_numbers given sent }
{
    TvSent {
        sides: handed_back(given, sent.refusal, sent.sides),
        number: number_or_0(sent.refusal),
        place: sent.place,
    }
}

fn whose_named(ours: bool) -> Whose
    ensures { result ≡ whose_named ours }
{
    if ours { Whose::Ours } else { Whose::Other }
}

fn command_named(on: bool) -> Command
    ensures { result ≡ command_named on }
{
    if on { Command::On } else { Command::Off }
}

// Which state a number names.
pub fn states_named()
    ensures { SidesNamed }
{}

// Every side off.
pub fn tv_sides_fresh() -> TvSides
    ensures { result ≡ sides_numbers all_off }
{
    Sides::fresh().into()
}

// WILL, WONT, DO or DONT (251 to 254) was received, with its option byte; on is accepted or declined where that is
// open. Refused by 6 where the code is no option command.
pub fn tv_sides_receive(sides: TvSides, code: u8, option: u8, accept: bool) -> TvAnswered
    ensures { result ≡ receive_named sides (verb_named code) option accept }
{
    match export::verb_named(code) {
        Some(verb) => { answered_numbers(sides, Sides::from(sides).receive(verb, option, accept)) }
        None => silent(sides, Refusal::BadCommand.number()),
    }
}

// This end asks for our side or the other's to be on or off. Refused by 10, 11, 12 or 13.
pub fn tv_sides_request(sides: TvSides, ours: bool, option: u8, on: bool) -> TvAnswered
    ensures { result ≡ answered_numbers sides (requested (sides_named sides) (whose_named ours) option (command_named on)) }
{
    let whose = whose_named(ours);
    let command = command_named(on);
    answered_numbers(sides, Sides::from(sides).request(whose, option, command))
}

// WILL, WONT, DO or DONT was received, and the answer goes on the line at a place. Refused by 5; by 6 where the code is
// no option command; by 4 where the answer does not fit.
#[tactic(auto, unfolding(crate::specs::Numbers::receive_on_named))]
pub fn tv_option_receive(
    sides: TvSides,
    code: u8,
    option: u8,
    accept: bool,
    line: &mut [u8],
    at: usize,
) -> TvSent
    ensures { outcome result line.new ≡ receive_on_named sides (verb_named code) option accept line.old at }
{
    match export::verb_named(code) {
        Some(verb) => {
            let sent = option_line::receive(sides.into(), verb, option, accept, line, at);
            return sent_numbers(sides, sent);
        }
        None => {
            let why = if line.len() < at {
                Refusal::PastTheEnd
            } else {
                Refusal::BadCommand
            };
            return TvSent {
                sides,
                number: why.number(),
                place: at,
            };
        }
    }
}

// This end asks for our side or the other's to be on or off, and the command goes on the line at a place. Refused by 5;
// by 10, 11, 12 or 13; by 4.
pub fn tv_option_request(
    sides: TvSides,
    ours: bool,
    option: u8,
    on: bool,
    line: &mut [u8],
    at: usize,
) -> TvSent
    ensures { outcome result line.new
        ≡ numbered (sent_numbers sides) (requested_on (sides_named sides) (whose_named ours) option (command_named on) line.old at) }
{
    let named = Sides::from(sides);
    let whose = whose_named(ours);
    let command = command_named(on);
    sent_numbers(
        sides,
        option_line::request(named, whose, option, command, line, at),
    )
}

// This end hears what is at a place of the other's line, and answers on its own line at a place if that is an
// option command. Refused by 5 for either place; by 1, 2, 3 or 6 where it cannot be read; by 4.
pub fn tv_option_hear(
    sides: TvSides,
    heard: &[u8],
    from: usize,
    accept: bool,
    line: &mut [u8],
    at: usize,
) -> TvSent
    ensures { outcome result line.new
        ≡ numbered (sent_numbers sides) (heard_on (sides_named sides) heard.now from accept line.old at) }
{
    let named = Sides::from(sides);
    sent_numbers(
        sides,
        option_line::hear(named, heard, from, accept, line, at),
    )
}
