// Runs the three tests of offered passwords on cases from standard input, one a line: the examples of RFC 4777
// (sections 5.1 and 5.2), each with one bit changed, with other lengths, and with what is no name or no password.
// `stdout` was computed by Python's hashlib and the DES of its package `cryptography`, over a Python rendering of the
// two sections, which gives every token and substitute of `run_password`, and of the specification's two rules
// ("Tokens, substitutes, verdicts", "Verdict").
//
// A line is what is written first, a colon, and in hexadecimal digits how many bytes the stored token, the name, the
// seeds of the server and of the client and what is offered have, and the five. The first letter says the test: `D` by
// DES, `S` by SHA-1, `C` a clear password, without seeds.

#![tactic(auto)]

fn gives(
    letter: u8,
    token: &[u8],
    name: &[u8],
    server_seed: &[u8],
    client_seed: &[u8],
    offered: &[u8],
) -> bool {
    match letter {
        b'D' => password_check::gives_des(token, name, server_seed, client_seed, offered),
        b'S' => password_check::gives_sha(token, name, server_seed, client_seed, offered),
        _ => password_check::gives_clear(token, name, offered),
    }
}

fn say(answer: bool) {
    if answer {
        io::write_all(1, b" yes\n");
        return;
    }
    io::write_all(1, b" no\n");
}

// The stored token begins after the five counts.
fn run_case(letter: u8, token: u8, name: u8, server: u8, client: u8, offered: u8, case: &[u8]) {
    let name_at = 5 + token as usize;
    let server_at = name_at + name as usize;
    let client_at = server_at + server as usize;
    let offered_at = client_at + client as usize;
    say(gives(
        letter,
        octets_part::part(case, 5, token as usize),
        octets_part::part(case, name_at, name as usize),
        octets_part::part(case, server_at, server as usize),
        octets_part::part(case, client_at, client as usize),
        octets_part::part(case, offered_at, offered as usize),
    ));
}

fn run_line(line: &[u8]) {
    let mut case = [0u8; 256];
    show_case::begin_case(line, &mut case);
    run_case(
        octets_part::byte_at(line, 0),
        case[0],
        case[1],
        case[2],
        case[3],
        case[4],
        &case,
    );
}

fn main() {
    show_case::each_input_line::<32768, _>(run_line);
}
