// Runs cases of the password substitutes from standard input, one a line: the examples of RFC 4777 (sections 5, 5.1 and
// 5.2), names and passwords of every length that is treated in its own way, those about the limits of SHA-1, and what
// is refused: 33 comes first, and a password that DES cannot have may be one for SHA-1. `stdout` has the RFC's
// substitutes; every other value there was computed by OpenSSL 3.0 (`des-ecb`, `des-cbc`) and Python's hashlib, over a
// Python rendering of the two sections.
//
// A line is what is written first, a colon, and in hexadecimal digits the seeds of the server and of the client, how
// many bytes the name and the password have, and the two; a password that is given short goes on with `a`. The first
// letter says what is computed: `D` the token and the substitute by DES, `S` by SHA-1, `R` the sequence number of the
// server's seed, `P` whether the password is one for SHA-1, `s` whether the name and the password are the same.
#![tactic(auto)]

use refusal::Refusal;

fn say_refusal(refusal: Refusal) {
    io::write_all(1, b" refused ");
    io::print_decimal(1, refusal.number() as u64);
}

fn say_block(block: Result<u64, Refusal>) {
    match block {
        Ok(x) => {
            io::write_all(1, b" ");
            io::print_hex(1, x, 16);
        }
        Err(refusal) => say_refusal(refusal),
    }
}

fn say_hash(hash: Result<[u8; 20], Refusal>) {
    match hash {
        Ok(bytes) => {
            let mut out = [b' '; 41];
            show::put_hex(&bytes, &mut out, 1);
            io::write_all(1, &out);
        }
        Err(refusal) => say_refusal(refusal),
    }
}

fn by_des(name: &[u8], password: &[u8], server_seed: u64, client_seed: u64) {
    let answer = password_des::des_token(name, password);
    say_block(answer);
    if let Ok(token) = answer {
        say_block(password_des::des_substitute(token, name, server_seed, client_seed));
    }
}

fn by_sha(name: &[u8], password: &[u8], server_seed: u64, client_seed: u64) {
    let answer = password_sha::sha_token(name, password);
    say_hash(answer);
    if let Ok(token) = answer {
        say_hash(password_sha::sha_substitute(token, name, server_seed, client_seed));
    }
}

fn say_yes(yes: bool) {
    if yes {
        io::write_all(1, b" yes");
        return;
    }
    io::write_all(1, b" no");
}

fn run_texts(letter: u8, name: &[u8], password: &[u8], server_seed: u64, client_seed: u64) {
    match letter {
        b'D' => by_des(name, password, server_seed, client_seed),
        b'S' => by_sha(name, password, server_seed, client_seed),
        b'R' => say_block(Ok(password_des::rdr_seq(server_seed))),
        b'P' => say_yes(password_sha::is_password(password)),
        _ => say_yes(octets::same(name, password)),
    }
}

// The name begins after the seeds and the two counts.
fn run_case(letter: u8, name_length: u8, password_length: u8, case: &[u8]) {
    let password = 18 + name_length as usize;
    let end = password + password_length as usize;
    if case.len() < end {
        return;
    }
    run_texts(
        letter,
        &case[18..password],
        &case[password..end],
        words::word_64(case),
        words::word_64(&case[8..]),
    );
}

fn run_line(line: &[u8]) {
    let mut case = [b'a'; 256];
    show_case::begin_case(line, &mut case);
    run_case(octets_part::byte_at(line, 0), case[16], case[17], &case);
    io::write_all(1, b"\n");
}

fn main() {
    show_case::each_input_line::<8192, _>(run_line);
}
