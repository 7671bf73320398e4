// Runs SHA-1 on the cases of standard input, one a line: a letter, the case's name, and in hexadecimal digits what the
// letter asks for. They are the three published messages of FIPS 180 (`abc`, the 448-bit one and a million times `a`),
// and messages of lengths about the padding's edges, whose byte i is the length plus 7 * i, modulo 256.
//
//     m name: bytes               a message
//     s name: first step count    the message of `count` bytes (a number of three bytes), each greater by the step than the one before, modulo 256
//
// A line of output is a digest.
#![tactic(auto)]

fn say(message: &[u8]) {
    let mut line = [b'\n'; 41];
    show::put_hex(&sha1_digest::digest(message), &mut line, 0);
    io::write_all(1, &line);
}

fn fill(first: u8, step: u8, message: &mut [u8]) {
    let mut next = first;
    for b in message {
        *b = next;
        next = next.wrapping_add(step);
    }
}

fn say_series(first: u8, step: u8, n: usize, room: &mut [u8]) {
    if room.len() < n {
        return;
    }
    fill(first, step, &mut room[0..n]);
    say(&room[0..n]);
}

fn say_long(first: u8, step: u8, n: usize) {
    say_series(first, step, n, &mut [0u8; 1000000]);
}

// The number that three bytes say.
fn number(high: u8, middle: u8, low: u8) -> usize {
    u32::from_be_bytes([0, high, middle, low]) as usize
}

fn run_series(bytes: &[u8]) {
    if bytes.len() < 5 {
        return;
    }
    say_long(bytes[0], bytes[1], number(bytes[2], bytes[3], bytes[4]));
}

fn run_case(letter: u8, bytes: &[u8]) {
    if letter == b'm' {
        say(bytes);
        return;
    }
    run_series(bytes);
}

fn run_line(line: &[u8]) {
    let mut case = [0u8; 64];
    let n = show::read_hex(show_case::digits(line), &mut case);
    run_case(
        octets_part::byte_at(line, 0),
        octets_part::part(&case, 0, n),
    );
}

fn main() {
    show_case::each_input_line::<4096, _>(run_line);
}
