// Runs the reader of environment strings on the cases of standard input, one a line: a name, a colon, and in
// hexadecimal digits the room lent for bytes (two bytes), the room lent for numbers (two bytes) and the payload. A line
// without a colon is a title.
//
// A line of output has the name, the answer (the first byte, how many variables, how many bytes; or the refusal), and
// all that was lent, as it is after the call: bytes, which are EE before, and numbers, which are 7 before. The payloads
// of RFC 4777 are its own bytes, and those of clients were captured; the others are for the refusals of the
// specification, every two faults in either order, and each of its readings that is not the only one. `stdout` was made
// by a Python rendering of RFC 1572 as the specification reads it, with change request No. 3.
#![tactic(auto)]

use env_delivery::Payload;
use refusal::Refusal;

fn say(text: &[u8]) {
    io::write_all(1, text);
}

fn say_number(word: &[u8], n: usize) {
    say(word);
    io::print_decimal(1, n as u64);
}

// Bytes between semicolons, of which the text is full at first.
fn say_bytes(bytes: &[u8]) {
    let mut text = [b';'; 3302];
    let n = show::put_hex_spaced(bytes, &mut text, 1);
    if n <= 3301 {
        say(&text[0..n + 1]);
    }
}

fn say_spaced(n: usize) {
    say_number(b" ", n);
}

fn say_read(payload: Payload) {
    say_number(b" read ", payload.first as usize);
    say_spaced(payload.count);
    say_spaced(payload.used);
}

fn say_answer(answer: Result<Payload, Refusal>) {
    match answer {
        Ok(payload) => say_read(payload),
        Err(e) => say_number(b" refused ", e.number() as usize),
    }
}

fn read_into(payload: &[u8], bytes: &mut [u8], numbers: &mut [usize]) {
    let answer = env_reader::read(payload, bytes, numbers);
    say_answer(answer);
    say_bytes(bytes);
    show_case::say_numbers(numbers);
    say(b"\n");
}

fn read_in(payload: &[u8], room: usize, list: usize) {
    let mut bytes = [0xEEu8; 1100];
    let mut numbers = [7usize; 6000];
    if 1100 < room {
        return;
    }
    if 6000 < list {
        return;
    }
    read_into(payload, &mut bytes[0..room], &mut numbers[0..list]);
}

fn run_case(bytes: &[u8]) {
    read_in(
        octets_part::part(bytes, 4, bytes.len()),
        show_numbers::number_at(bytes, 0),
        show_numbers::number_at(bytes, 2),
    );
}

// A line that has no colon is said as it is.
fn run_line(line: &[u8]) {
    if show_case::is_title(line) {
        say(line);
        say(b"\n");
        return;
    }
    show_case::with_case::<2200, _>(line, run_case);
}

fn main() {
    show_case::each_input_line::<81920, _>(run_line);
}
