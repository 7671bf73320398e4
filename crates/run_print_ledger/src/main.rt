// Runs one ledger through the cases of standard input, one a line: a letter, the case's name, and bytes in hexadecimal
// digits.
//
//     t name: frame     a frame, given to the ledger
//     c name: output    a completion, into an output of these bytes
#![tactic(auto)]

use print_ledger::{Ledger, Receipt};
use refusal::Refusal;

fn say(text: &[u8]) {
    io::write_all(1, text);
}

fn say_refused(e: Refusal) {
    say(b"refused ");
    io::print_decimal(1, e.number() as u64);
}

fn say_receipt(receipt: Result<Receipt, Refusal>) {
    match receipt {
        Ok(Receipt::Held) => say(b"held"),
        Ok(Receipt::Cleared) => say(b"cleared"),
        Ok(Receipt::NothingToClear) => say(b"nothing to clear"),
        Err(e) => say_refused(e),
    }
}

fn say_completion(completion: Result<(), Refusal>) {
    match completion {
        Ok(()) => say(b"written, "),
        Err(e) => {
            say_refused(e);
            say(b", ");
        }
    }
}

fn say_hex(bytes: &[u8]) {
    let mut text = [0u8; 24];
    let n = show::put_hex(bytes, &mut text, 0);
    if n <= 24 {
        say(&text[0..n]);
    }
}

fn take(ledger: Ledger, frame: &[u8]) -> Ledger {
    let taken = ledger.take_frame(frame);
    say_receipt(taken.receipt);
    taken.ledger
}

fn complete(ledger: Ledger, out: &mut [u8]) -> Ledger {
    let completed = ledger.complete(out);
    say_completion(completed.completion);
    say_hex(out);
    completed.ledger
}

fn run_case(ledger: Ledger, letter: u8, bytes: &mut [u8]) -> Ledger {
    if letter == b't' {
        return take(ledger, bytes);
    }
    complete(ledger, bytes)
}

fn run_line(ledger: Ledger, line: &[u8]) -> Ledger {
    let mut case = [0u8; 1024];
    let n = show_case::begin_case(octets_part::part(line, 2, line.len()), &mut case);
    if 1024 < n {
        return ledger;
    }
    say(b" ");
    let after = run_case(ledger, octets_part::byte_at(line, 0), &mut case[0..n]);
    say(b"\n");
    after
}

// Every line, with one ledger.
fn main() {
    let mut ledger = Ledger::fresh();
    show_case::each_input_line::<16384, _>(|line| ledger = run_line(ledger, line));
}
