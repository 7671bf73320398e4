// Runs the calls for C of the reader that takes a stream by fragments, on the cases of standard input, one a line: a
// title, a colon, and in hexadecimal digits a byte that says what is done and what it is done with. One reader and one
// array go through all lines.
//
//     00                    a fresh reader
//     01 room fragment      one call with so much room, of two bytes
//     02                    the reader is closed
//     03                    the reader is reset
//     04 stage code count   a reader by these numbers, the count of two bytes (FFFF stands for the largest number
//                           there is), and an array of 5A
//
// A reader is told by its numbers; a call by the numbers of its answer in the order of the struct, then data, payload,
// and the bytes of the array up to the reader's count. `stdin` and `stdout` were made by a Python script from the
// constants of include/tongvelvet.h, the specification ("Framing") and change request No. 2: every stage, the stages of
// a forged reader, which numbers name none, and what a refusal and a faulted reader hand back.
#![tactic(auto)]

use export_reader::TvReader;
use show_case::{say_bytes, say_numbers};
use telnet::PAYLOAD_LIMIT;

fn say_reader(reader: TvReader) -> TvReader {
    say_numbers(&[reader.stage as usize, reader.code as usize, reader.count]);
    reader
}

fn call(
    reader: TvReader,
    kept: &mut [u8; PAYLOAD_LIMIT],
    fragment: &[u8],
    room: &mut [u8],
) -> TvReader {
    let fed = export_reader::tv_reader_feed(reader, kept, fragment, room);
    let next = say_reader(fed.reader);
    say_numbers(&[
        fed.number as usize,
        fed.what as usize,
        fed.code as usize,
        fed.option as usize,
        fed.taken,
        fed.length,
        fed.payload,
    ]);
    say_bytes(octets_part::part(room, 0, fed.length));
    say_bytes(octets_part::part(room, fed.length, fed.payload));
    say_bytes(octets_part::part(kept, 0, next.count));
    next
}

fn call_with(reader: TvReader, kept: &mut [u8; PAYLOAD_LIMIT], case: &[u8]) -> TvReader {
    let mut out = [0xEEu8; 2048];
    let room = show_numbers::number_at(case, 1);
    if 2048 < room {
        return reader;
    }
    call(
        reader,
        kept,
        octets_part::part(case, 3, case.len()),
        &mut out[0..room],
    )
}

fn close(reader: TvReader) -> TvReader {
    say_numbers(&[export_reader::tv_reader_close(reader) as usize]);
    reader
}

fn named(case: &[u8]) -> TvReader {
    say_reader(TvReader {
        stage: octets_part::byte_at(case, 1),
        code: octets_part::byte_at(case, 2),
        count: show_numbers::number_at(case, 3),
    })
}

fn run_case(reader: TvReader, kept: &mut [u8; PAYLOAD_LIMIT], case: &[u8]) -> TvReader {
    match octets_part::byte_at(case, 0) {
        0 => say_reader(export_reader::tv_reader_fresh()),
        1 => call_with(reader, kept, case),
        2 => close(reader),
        3 => say_reader(export_reader::tv_reader_reset(reader)),
        _ => {
            kept.fill(0x5A);
            named(case)
        }
    }
}

fn run_line(reader: TvReader, kept: &mut [u8; PAYLOAD_LIMIT], line: &[u8]) -> TvReader {
    let mut next = reader;
    show_case::with_case::<1100, _>(line, |case| next = run_case(reader, kept, case));
    io::write_all(1, b"\n");
    next
}

fn main() {
    let mut reader = export_reader::tv_reader_fresh();
    let mut kept = [0u8; PAYLOAD_LIMIT];
    show_case::each_input_line::<65536, _>(|line| reader = run_line(reader, &mut kept, line));
}
