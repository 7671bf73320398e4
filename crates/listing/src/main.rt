// Lists the events of standard input, at most 65,536 bytes. Here is only input and output: what is printed is
// `telnet_listing::print`.
#![tactic(auto)]

use telnet_listing::{LIMIT, ROOM};

const STDOUT_FILENO: i32 = 1;

const STDERR_FILENO: i32 = 2;

fn print(input: &[u8]) {
    let mut out = [0u8; ROOM];
    let n = telnet_listing::print(input, &mut out);
    // `write_all` goes on after a write that takes only a part, and answers false at the first that takes nothing or
    // fails.
    if !io::write_all(STDOUT_FILENO, &out[..n]) {
        io::write_all(STDERR_FILENO, b"listing: cannot write standard output\n");
    }
}

fn main(rt: HostRuntime) {
    // One byte more than may come tells that there are too many.
    let mut buffer = [0u8; LIMIT + 1];
    let input = show_input::read_all(rt.stdin(), &mut buffer);
    let n = input.count;
    if input.failed {
        io::write_all(STDERR_FILENO, b"listing: cannot read standard input\n");
        return;
    }
    print(&buffer[..n]);
}
