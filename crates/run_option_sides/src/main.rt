// Runs the verbs and the ten sides of a session on the cases of standard input, one a line: a name, a colon, and in
// hexadecimal digits calls on fresh sides, three bytes each. A call is a verb that we receive (FB to FE), an option,
// and whether on is accepted (01); or our request for our own side (00 off, 01 on) or for the other's (02 off, 03 on),
// an option, and 00.
//
// A line of output for each call has the verb and the command by which we would say the same of the same side; then the
// number, what is written, and the states of our side and the other's, numbered as the rows of the specification's
// table from 0 on. `stdout` is from RFC 854 (WILL is acknowledged by DO, DO by WILL; who sends WILL or WONT speaks of
// his own side), that table, and the exchanges that RFC 4777 prints in sections 2 and 3.
#![tactic(auto)]

use option_rules::{Command, Side};
use option_sides::{Answered, Sides};
use option_verbs::{Outgoing, Told, Whose};
use telnet::Verb;

fn say(text: &[u8]) {
    io::write_all(1, text);
}

fn say_number(n: u8) {
    say(b" ");
    io::print_decimal(1, n as u64);
}

fn say_verb(verb: Verb) {
    match verb {
        Verb::Will => say(b" WILL"),
        Verb::Wont => say(b" WONT"),
        Verb::Do => say(b" DO"),
        Verb::Dont => say(b" DONT"),
    }
}

fn say_command(command: Option<Outgoing>) {
    match command {
        None => say(b" nothing"),
        Some(Outgoing { verb, option }) => {
            say_verb(verb);
            say_number(option);
        }
    }
}

// How we would say it.
fn say_said(told: Told, option: u8) {
    let Told { whose, command } = told;
    say_verb(option_verbs::verb_for(whose, command));
    say_command(option_verbs::command_for(whose, option, Some(command)));
    say(b";");
}

fn say_sides(sides: Sides, option: u8) {
    say_number(sides.side(Whose::Ours, option) as u8);
    say_number(sides.side(Whose::Other, option) as u8);
    say(b"\n");
}

fn verb_of(b: u8) -> Verb {
    match b {
        0xFB => Verb::Will,
        0xFC => Verb::Wont,
        0xFD => Verb::Do,
        _ => Verb::Dont,
    }
}

// What a call says, and of which side.
fn told_of(call: u8) -> Told {
    match call {
        0 => Told {
            whose: Whose::Ours,
            command: Command::Off,
        },
        1 => Told {
            whose: Whose::Ours,
            command: Command::On,
        },
        2 => Told {
            whose: Whose::Other,
            command: Command::Off,
        },
        3 => Told {
            whose: Whose::Other,
            command: Command::On,
        },
        _ => option_verbs::told_by(verb_of(call)),
    }
}

fn called(sides: Sides, call: u8, option: u8, accept: u8) -> Answered {
    let told = told_of(call);
    say_said(told, option);
    if 4 <= call {
        return sides.receive(verb_of(call), option, accept == 1);
    }
    sides.request(told.whose, option, told.command)
}

fn step(sides: Sides, call: u8, option: u8, accept: u8) -> Sides {
    let answer = called(sides, call, option, accept);
    say_number(refusal::number_or_0(answer.refusal));
    say_command(answer.writes);
    say_sides(answer.sides, option);
    answer.sides
}

// Every call, from fresh sides on.
fn run_calls(bytes: &[u8]) {
    say(b"\n");
    let mut sides = Sides::fresh();
    for call in bytes.chunks_exact(3) {
        sides = step(sides, call[0], call[1], call[2]);
    }
}

fn run_line(line: &[u8]) {
    show_case::with_case::<64, _>(line, run_calls);
}

fn main() {
    show_case::each_input_line::<8192, _>(run_line);
}
