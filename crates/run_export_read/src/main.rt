// Runs the calls for C that read a line, on the cases of standard input, one a line: a title, a colon, and in
// hexadecimal digits a byte that says which call, a place and a room of two bytes each (FFFF stands for the largest
// number there is), and the line. A line of output has the title, the numbers of the answer in the order of its struct,
// and the buffer that was lent, to its end; it is EE before. `stdin` and `stdout` were made by a Python script from the
// constants of include/tongvelvet.h and the specification ("Framing", "Refusal numbers", the listing's lines): every
// kind of event, every refusal at its boundary, which comes first, and each room with one byte less.
#![tactic(auto)]

use export::TvWritten;
use show_case::{say_bytes, say_numbers};

fn read(line: &[u8], at: usize, out: &mut [u8]) {
    let e = export_telnet::tv_read(line, at, out);
    say_numbers(&[
        e.what as usize,
        e.refusal as usize,
        e.code as usize,
        e.option as usize,
        e.length,
        e.next,
    ]);
    say_bytes(out);
}

fn read_record(line: &[u8], at: usize, out: &mut [u8]) {
    let r = export_telnet::tv_read_record(line, at, out);
    say_numbers(&[r.complete as usize, r.refusal as usize, r.length, r.next]);
    say_bytes(out);
}

fn say_written(written: TvWritten, out: &[u8]) {
    say_numbers(&[written.refusal as usize, written.length]);
    say_bytes(out);
}

fn line_text(line: &[u8], at: usize, out: &mut [u8]) {
    let written = export_listing::tv_line(line, at, out);
    say_written(written, out);
}

fn list(line: &[u8], out: &mut [u8]) {
    let written = export_listing::tv_list(line, out);
    say_written(written, out);
}

fn call(which: u8, line: &[u8], at: usize, out: &mut [u8]) {
    match which {
        1 => return read(line, at, out),
        2 => return read_record(line, at, out),
        3 => return line_text(line, at, out),
        _ => return list(line, out),
    }
}

fn run_case(case: &[u8]) {
    let mut out = [0xEEu8; 1100];
    let room = show_numbers::number_at(case, 3);
    if 1100 < room {
        return;
    }
    call(
        octets_part::byte_at(case, 0),
        octets_part::part(case, 5, case.len()),
        show_numbers::number_at(case, 1),
        &mut out[0..room],
    );
}

fn run_line(line: &[u8]) {
    show_case::with_case::<1100, _>(line, run_case);
    io::write_all(1, b"\n");
}

fn main() {
    show_case::each_input_line::<16384, _>(run_line);
}
