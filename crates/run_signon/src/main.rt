// Runs sign-ons from standard input, one a line: a title, a colon, and in hexadecimal digits the server seed after its
// length (one byte), the profile table after its length (two bytes) and the payload. A line of output has the title and
// the verdict, or the refusal.
//
// The cases are the sign-ons of RFC 4777 (sections 5, 5.1 and 5.2), these with one thing changed, each rule of a
// verdict from both sides, each refusal, two refusals at once, each of the three variables undefined, and what clients
// sent. The tokens and substitutes in `stdin` are the RFC's or were computed by Python's hashlib and by the DES of its
// package `cryptography`, with which OpenSSL 3.0 (`des-ecb`, `des-cbc`) agrees; `stdout` was made by a Python rendering
// of the specification and of change request No. 3 over these.
#![tactic(auto)]

use refusal::Refusal;
use signon::Verdict;

fn say(text: &[u8]) {
    io::write_all(1, text);
}

fn word(verdict: Verdict) -> &'static [u8] {
    match verdict {
        Verdict::Panel => b" PANEL",
        Verdict::NotKnown => b" 0002",
        Verdict::Disabled => b" 0003",
        Verdict::Failed => b" 0004",
        Verdict::Grant => b" GRANT",
    }
}

fn say_refusal(e: Refusal) {
    say(b" REFUSED ");
    io::print_decimal(1, e.number() as u64);
}

fn say_answer(answer: Result<Verdict, Refusal>) {
    match answer {
        Ok(verdict) => say(word(verdict)),
        Err(e) => say_refusal(e),
    }
}

// The table comes after its length, and the payload after the table.
fn sign_on(seed: &[u8], rest: &[u8]) {
    let table = show_input::announced(rest, 0);
    let payload = show_input::left_after(rest, 0);
    say_answer(signon_verdict::verdict(seed, table, payload));
}

fn run_case(case: &[u8]) {
    let n = octets_part::byte_at(case, 0) as usize;
    sign_on(
        octets_part::part(case, 1, n),
        octets_part::part(case, 1 + n, case.len()),
    );
}

fn run_line(line: &[u8]) {
    show_case::with_case::<1400, _>(line, run_case);
    say(b"\n");
}

fn main() {
    show_case::each_input_line::<81920, _>(run_line);
}
