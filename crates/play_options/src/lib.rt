// The first part of a printer session: option commands both ways, until NEW-ENVIRON, TERMINAL-TYPE, END-OF-RECORD and
// BINARY rest on. The host asks, the printer answers. What passes the lines is said in `specs/Negotiated.antt`. What is
// said of it goes to standard output, of which no contract speaks.
#![tactic(auto)]

ghost use Rattle.std.specs.Prelude.{◌≡◌, None};
ghost use Rattle.octets.specs.Lent.{outcome};
ghost use Rattle.option_line.specs.Line.{sent};
ghost use Rattle.option_sides.specs.Session.{all_off};
ghost use Rattle.play_options.specs.Negotiated.{exchanged, Negotiated};
ghost use Rattle.play_options.specs.Internal.Turns.{whose_at, option_at, is_on, all_on, asked_all, heard_all};

use option_line::Sent;
use option_rules::{Command, Side};
use option_sides::Sides;
use option_verbs::Whose;
use show_event::Sender;

// What each end sends, and whether all of the options then rest on.
#[derive(Clone, Copy)]
pub struct Commands {
    pub down: [u8; 18],
    pub up: [u8; 18],
    pub rests: bool,
}

// The host asks for NEW-ENVIRON and TERMINAL-TYPE on the printer's side, and for END-OF-RECORD and BINARY on both.
fn option_at(i: usize) -> u8
    ensures { result ≡ option_at i }
{
    match i {
        0 => option_rules::NEW_ENVIRON,
        1 => option_rules::TERMINAL_TYPE,
        2 | 3 => option_rules::END_OF_RECORD,
        _ => option_rules::BINARY,
    }
}

fn whose_at(i: usize) -> Whose
    ensures { result ≡ whose_at i }
{
    match i {
        3 | 5 => Whose::Ours,
        _ => Whose::Other,
    }
}

// Before the first command.
fn nothing_sent() -> Sent
    ensures { result ≡ sent all_off None 0 }
{
    Sent {
        sides: Sides::fresh(),
        refusal: None,
        place: 0,
    }
}

// The host asks for all of them.
fn ask_all(down: &mut [u8]) -> Sent
    ensures { outcome result down.new ≡ asked_all down.old }
{
    let mut last = nothing_sent();
    for i in 0..6 {
        last = option_line::request(
            last.sides,
            whose_at(i),
            option_at(i),
            Command::On,
            down,
            last.place,
        );
    }
    last
}

// An end hears six option commands, of three bytes each, and accepts; what it answers goes after what it has sent.
fn hear_all(first: Sent, heard: &[u8], line: &mut [u8]) -> Sent
    ensures { outcome result line.new ≡ heard_all first heard.now line.old }
{
    let mut last = first;
    for i in 0..6 {
        last = option_line::hear(last.sides, heard, 3 * i, true, line, last.place);
    }
    last
}

fn is_on(side: Side) -> bool
    ensures { result ≡ is_on side }
{
    matches!(side, Side::On)
}

// Whether all that the host asks for is on, as it sees it.
fn all_on(sides: Sides) -> bool
    ensures { result ≡ all_on 6 0 sides }
{
    (0..6).all(|i| is_on(sides.side(whose_at(i), option_at(i))))
}

// Both ends, from their first command on.
fn exchange() -> Commands
    ensures { result ≡ exchanged }
{
    let mut down = [0u8; 18];
    let mut up = [0u8; 18];
    let asked = ask_all(&mut down);
    hear_all(nothing_sent(), &down, &mut up);
    let host = hear_all(asked, &up, &mut down);
    Commands {
        down,
        up,
        rests: all_on(host.sides),
    }
}

// The commands of both ends at the front of their lines. The answer is whether the options rest on; where a line has no
// room, both are as they were.
pub fn negotiate(down: &mut [u8], up: &mut [u8]) -> bool
    ensures { Negotiated down.old up.old result down.new up.new }
{
    if down.len() < 18 {
        return false;
    }
    if up.len() < 18 {
        return false;
    }
    let commands = exchange();
    octets::put(&commands.down, down, 0);
    octets::put(&commands.up, up, 0);
    show_event::say_commands(Sender::Host, &commands.down);
    show_event::say_commands(Sender::Printer, &commands.up);
    commands.rests
}
