// Runs the call for C on response records, on the cases of standard input, one a line: a title, a colon, and in
// hexadecimal digits a byte that says which names and room, and the arguments. A line of output has the title and the
// numbers of the answer in the order of its struct, and the code that was written, or the whole record in the room that
// was lent. `stdin` and `stdout` were made by a Python script from the constants of include/tongvelvet.h and the
// records of `run_startup`: every verdict, and numbers that name none.
#![tactic(auto)]

use show_case::{say_numbers, say_values};

// The response code of the record, in EBCDIC.
fn respond(fault: u8, verdict: u8) {
    let mut out = [0u8; 73];
    let w = export_signon::tv_response(fault == 1, verdict, b"TARGET", b"PCPRINTER", &mut out);
    say_numbers(&[w.refusal as usize, w.length]);
    say_values(octets_part::part(&out, 16, 4));
}

fn respond_into(case: &[u8], out: &mut [u8]) {
    let n = octets_part::byte_at(case, 3) as usize;
    let w = export_signon::tv_response(
        octets_part::byte_at(case, 0) == 1,
        octets_part::byte_at(case, 1),
        octets_part::part(case, 4, n),
        octets_part::part(case, 4 + n, case.len()),
        out,
    );
    say_numbers(&[w.refusal as usize, w.length]);
    show_case::say_bytes(out);
}

// The whole record in the room that the case lends, for the names that it has.
fn respond_whole(case: &[u8]) {
    let mut out = [0xEEu8; 80];
    let room = octets_part::byte_at(case, 2) as usize;
    if room <= 80 {
        respond_into(case, &mut out[0..room]);
    }
}

fn run_case(case: &[u8]) {
    if octets_part::byte_at(case, 0) == 8 {
        respond(octets_part::byte_at(case, 1), octets_part::byte_at(case, 2));
        return;
    }
    respond_whole(octets_part::part(case, 1, case.len()));
}

fn run_line(line: &[u8]) {
    show_case::with_case::<256, _>(line, run_case);
    io::write_all(1, b"\n");
}

fn main() {
    show_case::each_input_line::<16384, _>(run_line);
}
