// Says refusals by numbers that need not be in the table, on the cases of standard input, one a line: a title, a colon,
// and in hexadecimal digits a place and a room of two bytes each (FFFF stands for the largest number there is), and the
// number. A line of output has the title, what `export::written_numbers` makes of a writer's refusal by it, what it
// makes of the answer of `telnet_line::line`, and the buffer that was lent, to its end; it is EE before. `stdin` and
// `stdout` were made by a Python script from the specification (the listing's lines): 0 and 255, a number of the table
// and one that is none, and each room with one byte less.
#![tactic(auto)]

use show_case::{say_bytes, say_numbers};

fn refuse(number: u8, at: usize, out: &mut [u8]) {
    let refused = export::written_numbers(Err(number));
    let written = export::written_numbers(telnet_line::line(at, Err(number), out));
    say_numbers(&[
        refused.refusal as usize,
        refused.length,
        written.refusal as usize,
        written.length,
    ]);
    say_bytes(out);
}

fn run_case(case: &[u8]) {
    let mut out = [0xEEu8; 100];
    let room = show_numbers::number_at(case, 2);
    if 100 < room {
        return;
    }
    refuse(
        octets_part::byte_at(case, 4),
        show_numbers::number_at(case, 0),
        &mut out[0..room],
    );
}

fn run_line(line: &[u8]) {
    show_case::with_case::<100, _>(line, run_case);
    io::write_all(1, b"\n");
}

fn main() {
    show_case::each_input_line::<4096, _>(run_line);
}
