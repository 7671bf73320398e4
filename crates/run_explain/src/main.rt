// Runs what the program `explain` prints, on the cases of standard input, one a line: a title, a colon, and in
// hexadecimal digits 00 and the program's input, or 01 and by how many its zeros are more than 65,535. A line of output
// has the title and what is printed.
//
// The cases are the sign-ons of `run_signon`, each reason from both sides of its boundary, every refusal, and every cut
// of the input. `stdout` was made by a Python rendering of the specification and of change requests No. 1 and No. 3,
// over Python's hashlib and the DES of its package `cryptography`.

// What the program prints for an input.
#![tactic(auto)]

fn say_printed(input: &[u8]) {
    let mut out = [0u8; signon_text::ROOM];
    let n = signon_text::print(input, &mut out);
    io::write_all(1, &out[..n]);
}

fn say_zeros(count: usize) {
    let input = [0u8; signon_text::LIMIT + 1];
    say_printed(octets_part::part(&input, 0, count));
}

fn run_case(case: &[u8]) {
    if octets_part::byte_at(case, 0) == 1 {
        say_zeros(65535 + octets_part::byte_at(case, 1) as usize);
        return;
    }
    say_printed(octets_part::part(case, 1, case.len()));
}

fn run_line(line: &[u8]) {
    show_case::with_case::<2048, _>(line, |case| {
        io::write_all(1, b" ");
        run_case(case)
    });
}

fn main() {
    show_case::each_input_line::<131072, _>(run_line);
}
