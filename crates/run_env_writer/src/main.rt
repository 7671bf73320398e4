// Runs the writer of environment strings on the cases of standard input, one a line: a name, a colon, and in
// hexadecimal digits the first byte, the room lent for the payload (two bytes), the length of a buffer (two bytes), the
// buffer, and the numbers of the records over it (two bytes each; FFFF stands for the largest number there is). A line
// without a colon is a title.
//
// A line of output has the name, the answer, and all that was lent, as it is after the call; it is EE before. What the
// reader's cases read is written again; the others are for the refusals of the specification and every two faults in
// either order. `stdout` was made by a Python rendering of RFC 1572 as the specification reads it, with change request
// No. 3.
#![tactic(auto)]

use octets_part::part;
use refusal::Refusal;
use show_numbers::{number_at, put_numbers};

fn say(text: &[u8]) {
    io::write_all(1, text);
}

fn say_number(word: &[u8], n: usize) {
    say(word);
    io::print_decimal(1, n as u64);
}

// Bytes, and the end of the line, of which the text is full at first.
fn say_bytes(bytes: &[u8]) {
    let mut text = [b'\n'; 3301];
    let n = show::put_hex_spaced(bytes, &mut text, 0);
    if n <= 3300 {
        say(&text[0..n + 1]);
    }
}

fn say_answer(answer: Result<usize, Refusal>) {
    match answer {
        Ok(n) => say_number(b" wrote ", n),
        Err(e) => say_number(b" refused ", e.number() as usize),
    }
}

fn write_into(first: u8, buffer: &[u8], numbers: &[usize], out: &mut [u8]) {
    let answer = env_writer::write(first, buffer, numbers, out);
    say_answer(answer);
    say(b";");
    say_bytes(out);
}

fn write_in(first: u8, buffer: &[u8], numbers: &[usize], room: usize) {
    let mut out = [0xEEu8; 1100];
    if room <= 1100 {
        write_into(first, buffer, numbers, &mut out[0..room]);
    }
}

fn run_over(first: u8, room: usize, buffer: &[u8], rest: &[u8]) {
    let mut numbers = [0usize; 400];
    let n = put_numbers(rest, &mut numbers);
    if n <= 400 {
        write_in(first, buffer, &numbers[0..n], room);
    }
}

fn run_case(bytes: &[u8]) {
    let n = bytes.len();
    if n < 5 {
        return;
    }
    let m = number_at(bytes, 3);
    if m <= n - 5 {
        run_over(
            bytes[0],
            number_at(bytes, 1),
            part(bytes, 5, m),
            part(bytes, 5 + m, n),
        );
    }
}

// A line that has no colon is said as it is.
fn run_line(line: &[u8]) {
    if show_case::is_title(line) {
        say(line);
        say(b"\n");
        return;
    }
    show_case::with_case::<2200, _>(line, run_case);
}

fn main() {
    show_case::each_input_line::<98304, _>(run_line);
}
