// Runs the cut of an input by a two-byte length on the cases of standard input, one a line: a name, a colon, and in
// hexadecimal digits a place (two bytes, of which FFFF is the largest number there is) and an input. A line without a
// colon is a title.
//
// A line of output has the name, the part announced, a stroke, and what is left after it. The input is read in three:
// sixteen bytes, which fill their buffer, the rest, and once more at its end; how many bytes each found is said.
// `stdout` was made by a Python rendering of change request No. 1.
#![tactic(auto)]

use octets_part::part;
use show_input::Input;

fn say(text: &[u8]) {
    io::write_all(1, text);
}

fn say_bytes(bytes: &[u8]) {
    let mut text = [0u8; 900];
    let n = show::put_hex_spaced(bytes, &mut text, 0);
    if n <= 900 {
        say(&text[0..n]);
    }
}

fn run_case(place: usize, input: &[u8]) {
    say_bytes(show_input::announced(input, place));
    say(b" |");
    say_bytes(show_input::left_after(input, place));
    say(b"\n");
}

fn run_hex(text: &[u8]) {
    let mut bytes = [0u8; 300];
    let n = show::read_hex(text, &mut bytes);
    if n <= 300 {
        run_case(show_numbers::number_at(&bytes, 0), part(&bytes[0..n], 2, n));
    }
}

// A line that has no colon is said as it is.
fn run_line(line: &[u8]) {
    let n = line.len();
    let colon = octets_find::find_byte(line, 0, b':');
    if n <= colon {
        say(line);
        return;
    }
    if 2 <= n - colon {
        say(part(line, 0, colon + 1));
        run_hex(part(line, colon + 2, n));
    }
}

// Every line of a text that has its end.
fn run(text: &[u8]) {
    for line in text.split_inclusive(|b| *b == b'\n') {
        if line.ends_with(b"\n") {
            run_line(line);
        }
    }
}

fn say_read(input: Input) {
    if input.failed {
        say(b"failed after ");
    }
    io::print_decimal(1, input.count as u64);
    say(b" bytes read\n");
}

fn main(rt: HostRuntime) {
    let mut first = [0u8; 16];
    say_read(show_input::read_all(rt.stdin(), &mut first));
    say(&first);
    let mut text = [0u8; 4096];
    let input = show_input::read_all(rt.stdin(), &mut text);
    let n = input.count;
    say_read(input);
    run(&text[..n]);
    say_read(show_input::read_all(rt.stdin(), &mut first));
}
