// Runs the calls for C on printer frames and the ledger, on the cases of standard input, one a line: a title, a colon,
// and in hexadecimal digits a byte that says which call, and its arguments. A line of output has the title and the
// numbers of the answer in the order of its struct, and what was written. `stdin` and `stdout` were made by a Python
// script from the constants of include/tongvelvet.h, the specification's frames and those of `run_print_frame`: every
// number of every enum, both ways, and numbers that name nothing.
#![tactic(auto)]

use export_print::TvLedger;
use show_case::{say_numbers, say_values};

fn fresh() {
    say_values(&[export_print::tv_ledger_fresh().held]);
}

fn take(ledger: u8, frame: &[u8]) {
    let t = export_print::tv_ledger_take(TvLedger { held: ledger }, frame);
    say_values(&[t.ledger.held, t.refusal, t.receipt]);
}

fn complete_into(ledger: u8, out: &mut [u8]) {
    let c = export_print::tv_ledger_complete(TvLedger { held: ledger }, out);
    say_numbers(&[c.ledger.held as usize, c.refusal as usize, c.length]);
    say_values(out);
}

// With room for ten bytes, or for nine.
fn complete(ledger: u8, room: u8) {
    let mut out = [0u8; 10];
    if room == 10 {
        complete_into(ledger, &mut out);
        return;
    }
    complete_into(ledger, &mut out[0..9]);
}

fn frame(bytes: &[u8]) {
    let f = export_print::tv_read_frame(bytes);
    say_values(&[f.refusal, f.direction, f.operation]);
}

// Every number of a frame.
fn whole_frame(bytes: &[u8]) {
    let f = export_print::tv_read_frame(bytes);
    say_values(&[
        f.refusal,
        f.direction,
        f.operation,
        f.diagnostics_included,
        f.error,
        f.intervention_required,
        f.ready,
        f.first_of_chain,
        f.last_of_chain,
    ]);
    say_numbers(&[
        f.diagnostics_at,
        f.diagnostics_length,
        f.data_at,
        f.data_length,
    ]);
}

// What a byte of the case says.
fn at(case: &[u8], i: usize) -> u8 {
    octets_part::byte_at(case, i)
}

// What is there from a place of the case on.
fn rest(case: &[u8], i: usize) -> &[u8] {
    octets_part::part(case, i, case.len())
}

fn run_case(case: &[u8]) {
    match at(case, 0) {
        0 => fresh(),
        3 => take(at(case, 1), rest(case, 2)),
        4 => complete(at(case, 1), at(case, 2)),
        5 => frame(rest(case, 1)),
        6 => whole_frame(rest(case, 1)),
        _ => {}
    }
}

fn run_line(line: &[u8]) {
    show_case::with_case::<1100, _>(line, run_case);
    io::write_all(1, b"\n");
}

fn main() {
    show_case::each_input_line::<16384, _>(run_line);
}
