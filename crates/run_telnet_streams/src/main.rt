// Takes every stream of a length, up to five bytes, out of 41 FF F0 FA FB EF and 00, in two parts cut at a place, with
// the reader that takes a stream by fragments. A case is a line of standard input: a title, a colon, and in hexadecimal
// digits the length and the place. A line of output tells how many closed at rest, waiting, with 2 and with 6, and how
// many bytes of data and how many events they gave in all: for a length the same wherever the cut is. The first four
// are the sums that the readings of change request No. 2 print; the other two are of a Python script, which keeps the
// raw bytes of what is unfinished.
#![tactic(auto)]

use octets_part::{byte_at, part};
use refusal::Refusal;
use telnet::PAYLOAD_LIMIT;
use telnet_fragments::Reader;

// The bytes that streams are of.
const SYMBOLS: [u8; 7] = [0x41, 0xFF, 0xF0, 0xFA, 0xFB, 0xEF, 0x00];

// What streams came to.
#[derive(Clone, Copy, Default)]
struct Tally {
    rest: usize,
    waiting: usize,
    undoubled: usize,
    bad: usize,
    data: usize,
    events: usize,
}

// A reader after a part of a stream, and what it gave.
#[derive(Clone, Copy)]
struct Part {
    reader: Reader,
    data: usize,
    events: usize,
}

// Takes all bytes of a part: at most one call for each.
fn take_part(begun: Part, kept: &mut [u8; PAYLOAD_LIMIT], s: &[u8], room: &mut [u8]) -> Part {
    let mut now = begun;
    let mut at: usize = 0;
    for _ in 0..s.len() {
        let fed = telnet_feed::feed(now.reader, kept, part(s, at, s.len()), room);
        at = at.saturating_add(fed.taken);
        now.reader = fed.reader;
        now.data = now.data.saturating_add(fed.length);
        if fed.kind.is_some() {
            now.events = now.events.saturating_add(1);
        }
    }
    now
}

// A stream by its number.
fn stream_of(i: usize) -> [u8; 5] {
    [
        SYMBOLS[i % 7],
        SYMBOLS[i / 7 % 7],
        SYMBOLS[i / 49 % 7],
        SYMBOLS[i / 343 % 7],
        SYMBOLS[i / 2401 % 7],
    ]
}

fn streams_of(length: u8) -> usize {
    match length {
        1 => 7,
        2 => 49,
        3 => 343,
        4 => 2401,
        5 => 16807,
        _ => 0,
    }
}

fn counted(tally: Tally, part: Part) -> Tally {
    let mut t = tally;
    t.data = t.data.saturating_add(part.data);
    t.events = t.events.saturating_add(part.events);
    match telnet_feed::close(part.reader) {
        Ok(()) => t.rest = t.rest.saturating_add(1),
        Err(Refusal::CutShort) => t.waiting = t.waiting.saturating_add(1),
        Err(Refusal::Undoubled) => t.undoubled = t.undoubled.saturating_add(1),
        Err(_) => t.bad = t.bad.saturating_add(1),
    }
    t
}

fn take_stream(tally: Tally, s: &[u8], cut: usize) -> Tally {
    let mut kept = [0u8; PAYLOAD_LIMIT];
    let mut room = [0u8; 2048];
    let begun = Part {
        reader: telnet_feed::fresh(),
        data: 0,
        events: 0,
    };
    let first = take_part(begun, &mut kept, part(s, 0, cut), &mut room);
    let both = take_part(first, &mut kept, part(s, cut, s.len()), &mut room);
    counted(tally, both)
}

fn take_streams(length: u8, cut: u8) {
    let mut tally = Tally::default();
    for i in 0..streams_of(length) {
        let s = stream_of(i);
        tally = take_stream(tally, part(&s, 0, usize::from(length)), usize::from(cut));
    }
    show_case::say_numbers(&[
        tally.rest,
        tally.waiting,
        tally.undoubled,
        tally.bad,
        tally.data,
        tally.events,
    ]);
}

fn run_line(line: &[u8]) {
    show_case::with_case::<2, _>(
        line,
        |case| take_streams(byte_at(case, 0), byte_at(case, 1)),
    );
    io::write_all(1, b"\n");
}

fn main() {
    show_case::each_input_line::<4096, _>(run_line);
}
