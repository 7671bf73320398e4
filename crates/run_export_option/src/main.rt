// Runs the calls for C that put option commands on a line, on the cases of standard input, one a line: a title, a
// colon, and in hexadecimal digits a byte that says which call; the ten sides; ours or the code, the option, on or
// accept; the place that is heard from and the place on the line, of two bytes each (FFFF stands for the largest number
// there is); how long the line is; and the other end's line. A line of output has the title, the numbers of the answer
// in the order of its struct, and the line to its end; it is EE before. `stdin` and `stdout` were made by a Python
// script from the constants of include/tongvelvet.h and the specification's table of the option rules: every cell,
// every option and side, every refusal, which comes first, numbers that name no state, and each room with one byte
// less.
#![tactic(auto)]

use export_option::{TvPair, TvSent, TvSides};

// What a byte of the case says.
fn at(case: &[u8], i: usize) -> u8 {
    octets_part::byte_at(case, i)
}

fn pair(ours: u8, other: u8) -> TvPair {
    TvPair { ours, other }
}

fn sides_of(case: &[u8]) -> TvSides {
    TvSides {
        binary: pair(at(case, 1), at(case, 2)),
        suppress_go_ahead: pair(at(case, 3), at(case, 4)),
        terminal: pair(at(case, 5), at(case, 6)),
        records: pair(at(case, 7), at(case, 8)),
        environ: pair(at(case, 9), at(case, 10)),
    }
}

fn say_pair(pair: TvPair) {
    show_case::say_numbers(&[pair.ours as usize, pair.other as usize]);
}

fn say_sent(sent: TvSent, line: &[u8]) {
    let sides = sent.sides;
    say_pair(sides.binary);
    say_pair(sides.suppress_go_ahead);
    say_pair(sides.terminal);
    say_pair(sides.records);
    say_pair(sides.environ);
    show_case::say_numbers(&[sent.number as usize, sent.place]);
    show_case::say_bytes(line);
}

fn call(case: &[u8], line: &mut [u8], place: usize) -> TvSent {
    let sides = sides_of(case);
    let option = at(case, 12);
    let yes = at(case, 13) == 1;
    match at(case, 0) {
        1 => return export_option::tv_option_request(
            sides,
            at(case, 11) == 1,
            option,
            yes,
            line,
            place,
        ),
        2 => return export_option::tv_option_receive(sides, at(case, 11), option, yes, line, place),
        _ => {}
    }
    let heard = octets_part::part(case, 19, case.len());
    let from = show_numbers::number_at(case, 14);
    export_option::tv_option_hear(sides, heard, from, yes, line, place)
}

fn call_on(case: &[u8], line: &mut [u8]) {
    let sent = call(case, line, show_numbers::number_at(case, 16));
    say_sent(sent, line);
}

fn run_case(case: &[u8]) {
    let mut line = [0xEEu8; 8];
    let room = at(case, 18) as usize;
    if room <= 8 {
        call_on(case, &mut line[0..room]);
    }
}

fn run_line(line: &[u8]) {
    show_case::with_case::<1100, _>(line, run_case);
    io::write_all(1, b"\n");
}

fn main() {
    show_case::each_input_line::<16384, _>(run_line);
}
