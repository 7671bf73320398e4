// Tells why a sign-on is answered as it is. Standard input is the 8-byte server seed, the length of the profile table in
// two bytes, the higher first, the table, and the payload of NEW-ENVIRON that the client sent; at most 65,536 bytes.
// Here is only input and output: what is printed is `signon_text::print`.
#![tactic(auto)]

use signon_text::{LIMIT, ROOM};

const STDOUT_FILENO: i32 = 1;

const STDERR_FILENO: i32 = 2;

fn print(input: &[u8]) {
    let mut out = [0u8; ROOM];
    let n = signon_text::print(input, &mut out);
    if !io::write_all(STDOUT_FILENO, &out[..n]) {
        io::write_all(STDERR_FILENO, b"explain: cannot write standard output\n");
    }
}

fn main(rt: HostRuntime) {
    // One byte more than may come tells that there are too many.
    let mut buffer = [0u8; LIMIT + 1];
    let input = show_input::read_all(rt.stdin(), &mut buffer);
    let n = input.count;
    if input.failed {
        io::write_all(STDERR_FILENO, b"explain: cannot read standard input\n");
        return;
    }
    print(&buffer[..n]);
}
