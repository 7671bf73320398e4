// Plays the start of a printer session and the printing of one order: both ends in one program, on two lent buffers,
// what the host has sent and what the printer has sent. Nothing is used but the library. Standard input is the profile
// table. For each event there is a line of output: who sends it, the line that the listing has for it, and what it
// means to the end that reads it.
//
// The steps are in libraries, each with its promise: `play_options`, `play_environ`, `play_signon`, `play_response`,
// `play_order`. The places and lengths in `stdout` were computed by a Python rendering of the framing of RFCs 854, 855
// and 1572; the words after a colon (the verdict, the code, held, print complete) were written down as what the papers
// let expect, and the substitute is that of `run_password`.

// The option commands of both ends come first, 18 bytes on either line; the printer signs on where the options rest on,
// and the order is sent and heard back.
#![tactic(auto)]

fn main() {
    let mut table = [0u8; 512];
    let n = io::read_full(0, &mut table);
    let mut down = [0u8; 512];
    let mut up = [0u8; 512];
    io::write_all(1, b"A printer session");
    if !play_options::negotiate(&mut down, &mut up) {
        return;
    }
    let asked = play_environ::ask(&mut down, 18);
    let told = play_environ::tell(&mut up, 18);
    let verdict = play_signon::judge(octets_part::part(&table, 0, n), &up, 18);
    let responded = play_response::respond(verdict, &mut down, asked);
    play_order::play(&mut down, responded, &mut up, told);
    io::write_all(1, b"\n");
}
