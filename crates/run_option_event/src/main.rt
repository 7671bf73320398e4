// Runs events that were read through the call that answers them on a line, on the cases of standard input, one a line: a
// title, a colon, and in hexadecimal digits the calls, of five bytes each. A case begins with fresh sides and a line of
// eight bytes EE. A call is an event (20 data, 21 an end-of-record, 22 a subnegotiation, 2B to 2E WILL, WONT, DO and
// DONT); an option; whether on is accepted (01); the place on the line; and how long the line is.
//
// A line of output for each call has the number, the place after it, the states of our side and the other's of that
// option, numbered as the rows of the specification's table from 0 on, and the line. For an option command the text is
// that of its receipt in `run_option_line`; any other event leaves all as it is.
#![tactic(auto)]

use option_line::Sent;
use option_sides::Sides;
use option_verbs::Whose;
use telnet::{Kind, Verb};

fn say(text: &[u8]) {
    io::write_all(1, text);
}

fn event_of(what: u8, option: u8) -> Kind {
    match what {
        0x20 => Kind::Data,
        0x21 => Kind::Command(telnet::EOR),
        0x22 => Kind::Subnegotiation(option),
        0x2B => Kind::Negotiation(Verb::Will, option),
        0x2C => Kind::Negotiation(Verb::Wont, option),
        0x2D => Kind::Negotiation(Verb::Do, option),
        _ => Kind::Negotiation(Verb::Dont, option),
    }
}

fn say_line(line: &[u8]) {
    let mut out = [b' '; 17];
    let end = show::put_hex(line, &mut out, 1);
    say(octets_part::part(&out, 0, end));
    say(b"\n");
}

fn say_sent(sent: Sent, option: u8) {
    let sides = sent.sides;
    show_case::say_numbers(&[
        refusal::number_or_0(sent.refusal) as usize,
        sent.place,
        sides.side(Whose::Ours, option) as usize,
        sides.side(Whose::Other, option) as usize,
    ]);
}

fn step(sides: Sides, call: &[u8], line: &mut [u8]) -> Sides {
    let option = octets_part::byte_at(call, 1);
    let sent = option_line::hear_event(
        sides,
        event_of(octets_part::byte_at(call, 0), option),
        octets_part::byte_at(call, 2) == 1,
        line,
        octets_part::byte_at(call, 3) as usize,
    );
    say_sent(sent, option);
    say_line(line);
    sent.sides
}

// A call on the first bytes of the line, as many as it says.
fn step_on(sides: Sides, call: &[u8], line: &mut [u8]) -> Sides {
    let length = octets_part::byte_at(call, 4) as usize;
    if line.len() < length {
        return sides;
    }
    step(sides, call, &mut line[0..length])
}

// Every call, from fresh sides on.
fn run_calls(calls: &[u8]) {
    say(b"\n");
    let mut line = [0xEEu8; 8];
    let mut sides = Sides::fresh();
    for call in calls.chunks_exact(5) {
        sides = step_on(sides, call, &mut line);
    }
}

fn run_line(line: &[u8]) {
    show_case::with_case::<64, _>(line, run_calls);
}

fn main() {
    show_case::each_input_line::<8192, _>(run_line);
}
