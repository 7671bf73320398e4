// Runs the look-up of a variable on the cases of standard input, one a line: a name, a colon, and in hexadecimal digits
// the kind (two bytes), the length of the name that is looked up, that name, the length of a buffer (two bytes), the
// buffer, and the numbers of the records over it (two bytes each). A line without a colon is a title.
//
// A line of output has the name and the answers of `find`, the length and place of the value, and of `value_of`, the
// value. The records are those that the payloads of RFC 4777 are read to, and others for the readings of the
// specification. `stdout` was made by a Python rendering of RFC 1572 as the specification reads it, with change request
// No. 3.
#![tactic(auto)]

use env_search::ValuePlace;
use octets_part::part;
use show_numbers::{number_at, put_numbers};

fn say(text: &[u8]) {
    io::write_all(1, text);
}

fn say_number(word: &[u8], n: usize) {
    say(word);
    io::print_decimal(1, n as u64);
}

// Bytes, and the end of the line, of which the text is full at first.
fn say_bytes(bytes: &[u8]) {
    let mut text = [b'\n'; 331];
    let n = show::put_hex_spaced(bytes, &mut text, 0);
    if n <= 330 {
        say(&text[0..n + 1]);
    }
}

fn say_place(place: Option<ValuePlace>) {
    match place {
        None => say(b" absent"),
        Some(ValuePlace { at, length }) => {
            say_number(b" ", length);
            say_number(b" at ", at);
            say(b";");
        }
    }
}

// The place of the value, and the value.
fn find_in(kind: usize, name: &[u8], buffer: &[u8], numbers: &[usize]) {
    say_place(env_search::find(buffer, numbers, kind, name));
    say_bytes(env_search::value_of(buffer, numbers, kind, name));
}

fn run_over(kind: usize, name: &[u8], buffer: &[u8], rest: &[u8]) {
    let mut numbers = [0usize; 100];
    let n = put_numbers(rest, &mut numbers);
    if n <= 100 {
        find_in(kind, name, buffer, &numbers[0..n]);
    }
}

// A buffer with its length before it, and numbers.
fn run_records(kind: usize, name: &[u8], bytes: &[u8]) {
    let n = bytes.len();
    if n < 2 {
        return;
    }
    let m = number_at(bytes, 0);
    if m <= n - 2 {
        run_over(kind, name, part(bytes, 2, m), part(bytes, 2 + m, n));
    }
}

fn wide(b: u8) -> usize {
    b as usize
}

fn run_case(bytes: &[u8]) {
    let n = bytes.len();
    if n < 3 {
        return;
    }
    let m = wide(bytes[2]);
    if m <= n - 3 {
        run_records(
            number_at(bytes, 0),
            part(bytes, 3, m),
            part(bytes, 3 + m, n),
        );
    }
}

// A line that has no colon is said as it is.
fn run_line(line: &[u8]) {
    if show_case::is_title(line) {
        say(line);
        say(b"\n");
        return;
    }
    show_case::with_case::<256, _>(line, run_case);
}

fn main() {
    show_case::each_input_line::<16384, _>(run_line);
}
