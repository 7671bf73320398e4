// Runs the call for C that writes environment strings, on the cases of standard input, one a line: a title, a colon,
// and in hexadecimal digits the first byte, the room lent for the payload (two bytes), a buffer after its two-byte
// length, and the numbers of the records over it (two bytes each; FFFF stands for the largest number there is). A line
// of output has the title, the numbers of the answer in the order of its struct, and the buffer that was lent, to its
// end; it is EE before. `stdin` and `stdout` were made by a Python script from the constants of include/tongvelvet.h
// and RFC 1572 as the specification reads it ("Environment strings", "Refusal numbers"): every refusal, which comes
// first over the whole list, sums that would wrap, and each room with one byte less.

#![tactic(auto)]

fn write(first: u8, bytes: &[u8], numbers: &[usize], out: &mut [u8]) {
    let w = export_env::tv_env_write(first, bytes, numbers, out);
    show_case::say_numbers(&[w.refusal as usize, w.length]);
    show_case::say_bytes(out);
}

fn write_in(first: u8, bytes: &[u8], numbers: &[usize], room: usize) {
    let mut out = [0xEEu8; 1100];
    if room <= 1100 {
        write(first, bytes, numbers, &mut out[0..room]);
    }
}

fn write_records(first: u8, room: usize, bytes: &[u8], pairs: &[u8]) {
    let mut numbers = [0usize; 400];
    let n = show_numbers::put_numbers(pairs, &mut numbers);
    if n <= 400 {
        write_in(first, bytes, &numbers[0..n], room);
    }
}

fn run_case(case: &[u8]) {
    write_records(
        octets_part::byte_at(case, 0),
        show_numbers::number_at(case, 1),
        show_input::announced(case, 3),
        show_input::left_after(case, 3),
    );
}

fn run_line(line: &[u8]) {
    show_case::with_case::<1100, _>(line, run_case);
    io::write_all(1, b"\n");
}

fn main() {
    show_case::each_input_line::<16384, _>(run_line);
}
