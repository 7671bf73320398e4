// Runs the token maker on the cases of standard input, one a line: what is written first, a colon, and in hexadecimal
// digits the two marks (01 where one is set), how many bytes are lent, how many the name and the password have, and the
// two. The lent bytes are EE before the call.
//
// A line of output is the answer and every lent byte after the call. `stdout` was computed by OpenSSL 3.0 (`des-ecb`)
// and Python's hashlib, over a Python rendering of RFC 4777, sections 5.1 and 5.2, and of the specification ("Tokens,
// substitutes, verdicts", "Refusal numbers" 4, 33 and 34).
#![tactic(auto)]

fn say_number(word: &[u8], n: usize) {
    io::write_all(1, word);
    io::print_decimal(1, n as u64);
}

fn say_bytes(bytes: &[u8]) {
    let mut text = [0u8; 144];
    let n = show::put_hex_spaced(bytes, &mut text, 0);
    if n <= 144 {
        io::write_all(1, &text[0..n]);
    }
}

fn make(name: &[u8], password: &[u8], enabled: bool, des_allowed: bool, out: &mut [u8]) {
    match profile_maker::make_record(name, password, enabled, des_allowed, out) {
        Ok(n) => say_number(b" wrote ", n),
        Err(e) => say_number(b" refused ", e.number() as usize),
    }
    say_bytes(out);
}

fn make_in(room: usize, name: &[u8], password: &[u8], enabled: bool, des_allowed: bool) {
    let mut out = [0xEEu8; 48];
    if room <= 48 {
        make(name, password, enabled, des_allowed, &mut out[0..room]);
    }
}

// The name begins after the marks, the room and the two lengths.
fn run_case(room: u8, name_length: u8, password_length: u8, case: &[u8]) {
    let n = name_length as usize;
    make_in(
        room as usize,
        octets_part::part(case, 5, n),
        octets_part::part(case, 5 + n, password_length as usize),
        octets_part::byte_at(case, 0) == 1,
        octets_part::byte_at(case, 1) == 1,
    );
}

fn run_line(line: &[u8]) {
    let mut case = [0u8; 256];
    show_case::begin_case(line, &mut case);
    run_case(case[2], case[3], case[4], &case);
    io::write_all(1, b"\n");
}

fn main() {
    show_case::each_input_line::<8192, _>(run_line);
}
