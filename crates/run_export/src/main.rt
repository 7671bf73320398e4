// Runs the calls for C whose arguments or answers stand for the cases of an enum, on the cases of standard input, one a
// line: a title, a colon, and in hexadecimal digits a byte that says which call, and its arguments. A line of output
// has the title and the numbers of the answer in the order of its struct, and what was written. `stdin` and `stdout`
// were made by a Python script from the constants of include/tongvelvet.h and the specification's table of the option
// rules: every number of every enum, both ways, numbers that name nothing, and what is written into eight bytes. Those
// of frames and the ledger are in `run_export_print`, those of the verdicts in `run_export_signon`.
#![tactic(auto)]

use export_option::{TvPair, TvSides};
use show_case::{say_numbers, say_values};

// Every side in one state.
fn all_in(state: u8) -> TvSides {
    let pair = TvPair {
        ours: state,
        other: state,
    };
    TvSides {
        binary: pair,
        suppress_go_ahead: pair,
        terminal: pair,
        records: pair,
        environ: pair,
    }
}

fn say_sides(sides: TvSides) {
    say_values(&[
        sides.binary.ours,
        sides.binary.other,
        sides.suppress_go_ahead.ours,
        sides.suppress_go_ahead.other,
        sides.terminal.ours,
        sides.terminal.other,
        sides.records.ours,
        sides.records.other,
        sides.environ.ours,
        sides.environ.other,
    ]);
}

fn request(state: u8, ours: u8, option: u8, on: u8) {
    let a = export_option::tv_sides_request(all_in(state), ours == 1, option, on == 1);
    say_sides(a.sides);
    say_values(&[a.number, a.writes, a.code, a.option]);
}

fn receive(state: u8, code: u8, option: u8, accept: u8) {
    let a = export_option::tv_sides_receive(all_in(state), code, option, accept == 1);
    say_sides(a.sides);
    say_values(&[a.number, a.writes, a.code, a.option]);
}

fn look(bytes: &[u8]) {
    let e = export_telnet::tv_look(bytes, 0);
    say_values(&[e.what, e.refusal, e.code, e.option]);
}

fn write(what: u8, code: u8, option: u8, payload: &[u8]) {
    let mut out = [0u8; 8];
    let w = export_telnet::tv_write(what, code, option, payload, &mut out);
    say_numbers(&[w.refusal as usize, w.length]);
    say_values(octets_part::part(&out, 0, w.length));
}

// What a byte of the case says.
fn at(case: &[u8], i: usize) -> u8 {
    octets_part::byte_at(case, i)
}

// What is there from a place of the case on.
fn rest(case: &[u8], i: usize) -> &[u8] {
    octets_part::part(case, i, case.len())
}

fn run_case(case: &[u8]) {
    match at(case, 0) {
        0 => say_sides(export_option::tv_sides_fresh()),
        1 => request(at(case, 1), at(case, 2), at(case, 3), at(case, 4)),
        2 => receive(at(case, 1), at(case, 2), at(case, 3), at(case, 4)),
        6 => look(rest(case, 1)),
        7 => write(at(case, 1), at(case, 2), at(case, 3), rest(case, 4)),
        _ => {}
    }
}

fn run_line(line: &[u8]) {
    show_case::with_case::<1100, _>(line, run_case);
    io::write_all(1, b"\n");
}

fn main() {
    show_case::each_input_line::<16384, _>(run_line);
}
