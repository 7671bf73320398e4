// Runs the reader of events and of records on the cases of standard input, one a line: a letter, the case's name, and
// in hexadecimal digits a place, a room, and a stream. They are the refusals at their boundaries, rooms and records.
//
//     r name: place room stream    one event at a place, read into so much room of eight bytes
//     k name: place room stream    one record from a place on, likewise
//
// A line of output names the case; what follows is the answer with the bytes of the buffer, which are 2E before.
#![tactic(auto)]

use refusal::Refusal;
use telnet_reader::Found;
use telnet_records::Record;

fn say(text: &[u8]) {
    io::write_all(1, text);
}

fn say_number(word: &[u8], n: usize) {
    say(word);
    io::print_decimal(1, n as u64);
}

fn say_name(name: &[u8]) {
    say(b"== ");
    say(name);
    say(b"\n");
}

// Ends a line: a colon, and the bytes of the buffer.
fn say_bytes(bytes: &[u8]) {
    let mut text = [0u8; 36];
    let n = show::put_hex_spaced(bytes, &mut text, 0);
    say(b":");
    if n <= 36 {
        say(&text[0..n]);
    }
    say(b"\n");
}

fn say_found(length: usize, next: usize) {
    say_number(b"length ", length);
    say_number(b", next ", next);
}

fn say_refused(e: Refusal) {
    say_number(b"refused ", e.number() as usize);
}

fn say_event(answer: Result<Option<Found>, Refusal>) {
    match answer {
        Ok(Some(found)) => say_found(found.length, found.next),
        Ok(None) => say(b"end"),
        Err(e) => say_refused(e),
    }
}

fn say_record(answer: Result<Option<Record>, Refusal>) {
    match answer {
        Ok(Some(record)) => say_found(record.length, record.next),
        Ok(None) => say(b"unfinished"),
        Err(e) => say_refused(e),
    }
}

fn read(letter: u8, s: &[u8], at: usize, out: &mut [u8]) {
    if letter == b'r' {
        say_event(telnet_reader::read(s, at, out));
        return;
    }
    say_record(telnet_records::read_record(s, at, out));
}

fn read_in(letter: u8, s: &[u8], at: usize, room: usize, out: &mut [u8]) {
    if out.len() < room {
        return;
    }
    read(letter, s, at, &mut out[0..room]);
    say_bytes(out);
}

fn run_case(letter: u8, bytes: &[u8]) {
    let n = bytes.len();
    if 2 <= n {
        read_in(
            letter,
            &bytes[2..n],
            usize::from(bytes[0]),
            usize::from(bytes[1]),
            &mut [0x2Eu8; 8],
        );
    }
}

fn run_line(line: &[u8]) {
    let rest = octets_part::part(line, 2, line.len());
    say_name(show_case::title(rest));
    let mut case = [0u8; 64];
    let n = show::read_hex(show_case::digits(rest), &mut case);
    run_case(
        octets_part::byte_at(line, 0),
        octets_part::part(&case, 0, n),
    );
}

fn main() {
    show_case::each_input_line::<4096, _>(run_line);
}
