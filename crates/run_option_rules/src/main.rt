// Runs the option rules on the cases of standard input, one a line: a name, a colon, and in hexadecimal digits an
// option, a state and a call. The states are numbered as the rows of the specification's table, the calls 00 receive on
// and accept, 01 receive on and decline, 02 receive off, 03 request on, 04 request off, and from 05 on the same by a
// command. A line of more than three bytes is a list of options, of which those that are carried are written.
//
// A line of output has the name and the answer: the successor, the number, and the command that is sent, if any.
// `stdout` is that table, cell by cell, and for an option not carried the sentence above it (`docs/DECISIONS.md`, O1 to
// O3).
#![tactic(auto)]

use option_rules::{Command, Side, Step};

fn say(text: &[u8]) {
    io::write_all(1, text);
}

fn say_number(n: u8) {
    say(b" ");
    io::print_decimal(1, n as u64);
}

fn say_want_off(then_on: bool) {
    say(b" WantOff");
    if then_on {
        say(b"ThenOn");
    }
}

fn say_want_on(then_off: bool) {
    say(b" WantOn");
    if then_off {
        say(b"ThenOff");
    }
}

fn say_side(side: Side) {
    match side {
        Side::Off => say(b" Off"),
        Side::On => say(b" On"),
        Side::WantOff => say_want_off(false),
        Side::WantOffThenOn => say_want_off(true),
        Side::WantOn => say_want_on(false),
        Side::WantOnThenOff => say_want_on(true),
    }
}

fn say_command(command: Command) {
    match command {
        Command::On => say(b" on"),
        Command::Off => say(b" off"),
    }
}

fn say_step(step: Step) {
    say_side(step.side);
    say_number(refusal::number_or_0(step.refusal));
    if let Some(command) = step.sends {
        say_command(command);
    }
}

fn side_of(state: u8) -> Side {
    match state {
        0 => Side::Off,
        1 => Side::On,
        2 => Side::WantOff,
        3 => Side::WantOffThenOn,
        4 => Side::WantOn,
        _ => Side::WantOnThenOff,
    }
}

fn stepped(side: Side, option: u8, call: u8) -> Step {
    match call {
        0 => side.receive_on(option, true),
        1 => side.receive_on(option, false),
        2 => side.receive_off(option),
        3 => side.request_on(option),
        4 => side.request_off(option),
        5 => side.receive(option, Command::On, true),
        6 => side.receive(option, Command::On, false),
        7 => side.receive(option, Command::Off, true),
        8 => side.request(option, Command::On),
        _ => side.request(option, Command::Off),
    }
}

fn say_if_carried(option: u8) {
    if option_rules::carried(option) {
        say_number(option);
    }
}

fn say_carried(options: &[u8]) {
    for option in options {
        say_if_carried(*option);
    }
}

fn run_case(bytes: &[u8]) {
    if bytes.len() == 3 {
        say_step(stepped(side_of(bytes[1]), bytes[0], bytes[2]));
        return;
    }
    say_carried(bytes);
}

fn run_line(line: &[u8]) {
    show_case::with_case::<256, _>(line, run_case);
    say(b"\n");
}

fn main() {
    show_case::each_input_line::<16384, _>(run_line);
}
