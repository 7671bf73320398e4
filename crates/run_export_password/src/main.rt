// Runs the calls for C on passwords, on the cases of standard input, one a line: a title, a colon, and in hexadecimal
// digits a byte that says which call, how long the lent buffer is, the seeds of the server and of the client, the name
// after its two-byte length, and the password or the token. A line of output has the title and the numbers of the
// answer in the order of its struct: of DES the refusal and the value in hexadecimal digits, of SHA-1 the refusal, the
// length, and the buffer to its end, which is 2E before. `stdin` and `stdout` were made by a Python script from the
// constants of include/tongvelvet.h, RFC 4777 (sections 5.1 and 5.2, with their examples), FIPS 46-3 and Python's
// hashlib: every length that is treated in its own way, every refusal, which comes first, and each room with a byte
// less.
#![tactic(auto)]

use export::TvWritten;
use export_password::TvBlock;
use show_case::say_numbers;

fn say_block(block: TvBlock) {
    say_numbers(&[block.refusal as usize]);
    io::write_all(1, b" ");
    io::print_hex(1, block.value, 16);
}

fn by_des(which: u8, server_seed: u64, client_seed: u64, name: &[u8], given: &[u8]) {
    if which == 1 {
        say_block(export_password::tv_des_token(name, given));
        return;
    }
    let token = words::word_64(given);
    say_block(export_password::tv_des_substitute(token, name, server_seed, client_seed));
}

fn say_written(written: TvWritten, out: &[u8]) {
    say_numbers(&[written.refusal as usize, written.length]);
    show_case::say_bytes(out);
}

fn by_sha(
    which: u8,
    server_seed: u64,
    client_seed: u64,
    name: &[u8],
    given: &[u8],
    out: &mut [u8],
) {
    if which == 3 {
        let token = export_password::tv_sha_token(name, given, out);
        say_written(token, out);
        return;
    }
    let substitute = export_password::tv_sha_substitute(given, name, server_seed, client_seed, out);
    say_written(substitute, out);
}

fn by_sha_in(
    which: u8,
    server_seed: u64,
    client_seed: u64,
    name: &[u8],
    given: &[u8],
    room: usize,
) {
    let mut out = [0x2Eu8; 24];
    if room <= 24 {
        by_sha(
            which,
            server_seed,
            client_seed,
            name,
            given,
            &mut out[0..room],
        );
    }
}

fn run_case(case: &[u8]) {
    let which = octets_part::byte_at(case, 0);
    let room = octets_part::byte_at(case, 1) as usize;
    let server_seed = words::word_64(octets_part::part(case, 2, 8));
    let client_seed = words::word_64(octets_part::part(case, 10, 8));
    let name = show_input::announced(case, 18);
    let given = show_input::left_after(case, 18);
    if which < 3 {
        by_des(which, server_seed, client_seed, name, given);
        return;
    }
    by_sha_in(which, server_seed, client_seed, name, given, room);
}

fn run_line(line: &[u8]) {
    show_case::with_case::<256, _>(line, run_case);
    io::write_all(1, b"\n");
}

fn main() {
    show_case::each_input_line::<16384, _>(run_line);
}
