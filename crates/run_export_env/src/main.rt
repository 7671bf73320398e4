// Runs the calls for C that read environment strings, on the cases of standard input, one a line: a title, a colon, and
// in hexadecimal digits a byte that says which call, and its arguments; a number has two bytes, and FFFF stands for the
// largest there is. A payload comes after the rooms lent for bytes and for numbers; the kind of a variable before a
// buffer and a name, each after its length, and the numbers of the records. A line of output has the title, the numbers
// of the answer in the order of its struct, and all that was lent, to its end: bytes, which are EE before, and numbers,
// which are 7777 before. `stdin` and `stdout` were made by a Python script from the constants of include/tongvelvet.h
// and RFC 1572 as the specification reads it ("Environment strings", "Refusal numbers"): every refusal, which comes
// first, and each room with one less.
#![tactic(auto)]

use show_case::{say_bytes, say_numbers};

fn read(payload: &[u8], bytes: &mut [u8], numbers: &mut [usize]) {
    let p = export_env::tv_env_read(payload, bytes, numbers);
    say_numbers(&[p.refusal as usize, p.first as usize, p.variables, p.bytes]);
    say_bytes(bytes);
    io::write_all(1, b";");
    say_numbers(numbers);
}

fn read_in(payload: &[u8], room: usize, list: usize) {
    let mut bytes = [0xEEu8; 1100];
    let mut numbers = [7777usize; 400];
    if 1100 < room {
        return;
    }
    if 400 < list {
        return;
    }
    read(payload, &mut bytes[0..room], &mut numbers[0..list]);
}

fn find(kind: usize, bytes: &[u8], name: &[u8], numbers: &[usize]) {
    let v = export_env::tv_env_value(bytes, numbers, kind, name);
    say_numbers(&[v.present as usize, v.at, v.length]);
}

// The name comes after the buffer, and the numbers after the name.
fn find_in(kind: usize, bytes: &[u8], rest: &[u8]) {
    let mut numbers = [0usize; 32];
    let n = show_numbers::put_numbers(show_input::left_after(rest, 0), &mut numbers);
    if n <= 32 {
        find(kind, bytes, show_input::announced(rest, 0), &numbers[0..n]);
    }
}

fn run_case(case: &[u8]) {
    let first = show_numbers::number_at(case, 1);
    if octets_part::byte_at(case, 0) == 1 {
        let list = show_numbers::number_at(case, 3);
        read_in(octets_part::part(case, 5, case.len()), first, list);
        return;
    }
    find_in(
        first,
        show_input::announced(case, 3),
        show_input::left_after(case, 3),
    );
}

fn run_line(line: &[u8]) {
    show_case::with_case::<1100, _>(line, run_case);
    io::write_all(1, b"\n");
}

fn main() {
    show_case::each_input_line::<16384, _>(run_line);
}
