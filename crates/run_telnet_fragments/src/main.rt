// Runs the reader that takes a stream by fragments on the cases of standard input, one a line: a title, a colon, and in
// hexadecimal digits a byte that says what is done and what it is done with. One reader goes through all lines.
//
//     00                 a fresh reader
//     01 room fragment   one call with so much room, of two bytes
//     02                 the reader is closed
//     03                 the reader is reset
//
// A call is told by its number, the bytes taken, the length of its data, the numbers of its event (1 0 0 where there is
// none), the length of its payload, and what closing would answer; then data and payload, and after a bar how many of
// the room's bytes, which are 2E before, are others past them. `stdin` and `stdout` were made by a Python script from
// the specification ("Framing") and change request No. 2: a rendering that keeps the raw bytes of what is unfinished.
// They are the close in every stage, faults and what follows them, the 1,024th byte, the longest payload cut near its
// end, and rooms.
#![tactic(auto)]

use show_case::{say_bytes, say_numbers};
use telnet::{Kind, PAYLOAD_LIMIT};
use telnet_fragments::{Reader, Taken};

// How many bytes from a place on are not 2E.
fn others(room: &[u8], at: usize) -> usize {
    room.iter().skip(at).filter(|b| **b != 0x2E).count()
}

// What closing answers, as a number.
fn closed(reader: Reader) -> usize {
    usize::from(refusal::number_or_0(telnet_feed::close(reader).err()))
}

fn say_fed(fed: Taken, room: &[u8]) {
    let event = export::kind_numbers(fed.kind.unwrap_or(Kind::Data));
    say_numbers(&[
        usize::from(refusal::number_or_0(fed.refusal)),
        fed.taken,
        fed.length,
        usize::from(event.what),
        usize::from(event.code),
        usize::from(event.option),
        fed.payload,
        closed(fed.reader),
    ]);
    say_bytes(octets_part::part(room, 0, fed.length));
    say_bytes(octets_part::part(room, fed.length, fed.payload));
    io::write_all(1, b" |");
    say_numbers(&[others(room, fed.length.saturating_add(fed.payload))]);
}

fn call(
    reader: Reader,
    kept: &mut [u8; PAYLOAD_LIMIT],
    fragment: &[u8],
    room: &mut [u8],
) -> Reader {
    let fed = telnet_feed::feed(reader, kept, fragment, room);
    say_fed(fed, room);
    fed.reader
}

fn call_with(reader: Reader, kept: &mut [u8; PAYLOAD_LIMIT], case: &[u8]) -> Reader {
    let mut out = [0x2Eu8; 2500];
    let room = show_numbers::number_at(case, 1);
    if 2500 < room {
        return reader;
    }
    call(
        reader,
        kept,
        octets_part::part(case, 3, case.len()),
        &mut out[0..room],
    )
}

fn close(reader: Reader) -> Reader {
    say_numbers(&[closed(reader)]);
    reader
}

fn run_case(reader: Reader, kept: &mut [u8; PAYLOAD_LIMIT], case: &[u8]) -> Reader {
    match octets_part::byte_at(case, 0) {
        0 => telnet_feed::fresh(),
        1 => call_with(reader, kept, case),
        2 => close(reader),
        _ => telnet_feed::reset(reader),
    }
}

fn run_line(reader: Reader, kept: &mut [u8; PAYLOAD_LIMIT], line: &[u8]) -> Reader {
    let mut next = reader;
    show_case::with_case::<2600, _>(line, |case| next = run_case(reader, kept, case));
    io::write_all(1, b"\n");
    next
}

fn main() {
    let mut reader = telnet_feed::fresh();
    let mut kept = [0u8; PAYLOAD_LIMIT];
    show_case::each_input_line::<131072, _>(|line| reader = run_line(reader, &mut kept, line));
}
