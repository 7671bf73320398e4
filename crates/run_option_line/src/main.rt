// Runs requests, receipts and what is heard with their commands on a line, on the cases of standard input, one a line:
// a title, a colon, and in hexadecimal digits how many calls there are, the calls, of six bytes each, and the other
// end's line. A case begins with fresh sides and a line of eight bytes EE. A call is a request for our own side (00
// off, 01 on) or for the other's (02 off, 03 on), a receipt (FB to FE), or 10 for what is heard; an option; whether on
// is accepted (01); the place that is heard from; the place on the own line; and how long that line is.
//
// A line of output for each call has the number, the place after it, the states of our side and the other's of that
// option, numbered as the rows of the specification's table from 0 on, and the own line. `stdout` was made by a Python
// rendering of that table and of RFC 854's framing.
#![tactic(auto)]

use option_line::Sent;
use option_rules::Command;
use option_sides::Sides;
use option_verbs::Whose;
use telnet::Verb;

fn say(text: &[u8]) {
    io::write_all(1, text);
}

fn verb_of(call: u8) -> Verb {
    match call {
        0xFB => Verb::Will,
        0xFC => Verb::Wont,
        0xFD => Verb::Do,
        _ => Verb::Dont,
    }
}

fn whose_of(call: u8) -> Whose {
    if call < 2 { Whose::Ours } else { Whose::Other }
}

fn command_of(call: u8) -> Command {
    if call & 1 == 1 {
        Command::On
    } else {
        Command::Off
    }
}

// A call with its six bytes.
fn called(sides: Sides, call: &[u8], heard: &[u8], line: &mut [u8]) -> Sent {
    let what = octets_part::byte_at(call, 0);
    let option = octets_part::byte_at(call, 1);
    let accept = octets_part::byte_at(call, 2) == 1;
    let from = octets_part::byte_at(call, 3) as usize;
    let at = octets_part::byte_at(call, 4) as usize;
    if what == 0x10 {
        return option_line::hear(sides, heard, from, accept, line, at);
    }
    if what < 4 {
        return option_line::request(sides, whose_of(what), option, command_of(what), line, at);
    }
    option_line::receive(sides, verb_of(what), option, accept, line, at)
}

fn say_line(line: &[u8]) {
    let mut out = [b' '; 17];
    let end = show::put_hex(line, &mut out, 1);
    say(octets_part::part(&out, 0, end));
    say(b"\n");
}

fn say_sent(sent: Sent, option: u8) {
    let sides = sent.sides;
    show_case::say_numbers(&[
        refusal::number_or_0(sent.refusal) as usize,
        sent.place,
        sides.side(Whose::Ours, option) as usize,
        sides.side(Whose::Other, option) as usize,
    ]);
}

fn step(sides: Sides, call: &[u8], heard: &[u8], line: &mut [u8]) -> Sides {
    let sent = called(sides, call, heard, line);
    say_sent(sent, octets_part::byte_at(call, 1));
    say_line(line);
    sent.sides
}

// A call on the first bytes of the line, as many as it says.
fn step_on(sides: Sides, call: &[u8], heard: &[u8], line: &mut [u8]) -> Sides {
    let length = octets_part::byte_at(call, 5) as usize;
    if line.len() < length {
        return sides;
    }
    step(sides, call, heard, &mut line[0..length])
}

// Every call, from fresh sides on.
fn run_calls(calls: &[u8], heard: &[u8]) {
    let mut line = [0xEEu8; 8];
    let mut sides = Sides::fresh();
    for call in calls.chunks_exact(6) {
        sides = step_on(sides, call, heard, &mut line);
    }
}

// How many calls there are, the calls, and the other end's line.
fn run_case(case: &[u8]) {
    say(b"\n");
    let n = 6 * octets_part::byte_at(case, 0) as usize;
    run_calls(
        octets_part::part(case, 1, n),
        octets_part::part(case, 1 + n, case.len()),
    );
}

fn run_line(line: &[u8]) {
    show_case::with_case::<128, _>(line, run_case);
}

fn main() {
    show_case::each_input_line::<8192, _>(run_line);
}
