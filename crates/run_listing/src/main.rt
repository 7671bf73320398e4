// What the listing program prints at its limits: for the 65,536 bytes with the longest listing known, for one byte
// more, and for no byte. The program prints how many bytes that is, and the last line of it.
#![tactic(auto)]

use telnet_listing::ROOM;

const STDOUT_FILENO: i32 = 1;

// 41 FF F9, a data run of one byte and a command with a number of three digits, 21,845 times, then 41 and once more 41.
fn bytes() -> [u8; 65537] {
    let mut input = [0x41u8; 65537];
    for i in 0..21845 {
        input[3 * i + 1] = 0xFF;
        input[3 * i + 2] = 0xF9;
    }
    input
}

// The last line, with its end.
fn show_last(text: &[u8]) {
    if let Some(line) = text.split_inclusive(|b| *b == b'\n').last() {
        io::write_all(STDOUT_FILENO, line);
    }
}

fn show(input: &[u8]) {
    let mut out = [0u8; ROOM];
    let n = telnet_listing::print(input, &mut out);
    io::print_decimal(STDOUT_FILENO, n as u64);
    io::write_all(STDOUT_FILENO, b" ");
    show_last(&out[..n]);
}

fn show_first(input: &[u8], n: usize) {
    if n <= input.len() {
        show(&input[0..n]);
    }
}

fn main() {
    let input = bytes();
    show_first(&input, 65536);
    show_first(&input, 65537);
    show_first(&input, 0);
}
