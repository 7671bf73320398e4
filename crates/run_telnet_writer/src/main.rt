// Runs the writer of events on the cases of standard input, one a line: a letter, the case's name, and in hexadecimal
// digits the kind of an event, its option or command, a room, and what it carries. FF is data, 00 a simple command, FA
// a subnegotiation, FC WONT. They are the refusals at their boundaries, rooms, and every simple command with its
// neighbours.
//
//     w name: kind option room bytes    one event, written into so much room of twelve bytes
//     x name: kind option room          the same with 1,025 bytes 00
//
// A line of output names the case; what follows is the answer with the bytes of the buffer, which are 2E before.
#![tactic(auto)]

use refusal::Refusal;
use telnet::{Kind, Verb};

fn say(text: &[u8]) {
    io::write_all(1, text);
}

fn say_number(word: &[u8], n: usize) {
    say(word);
    io::print_decimal(1, n as u64);
}

fn say_name(name: &[u8]) {
    say(b"== ");
    say(name);
    say(b"\n");
}

// Ends a line: a colon, and the bytes of the buffer.
fn say_bytes(bytes: &[u8]) {
    let mut text = [0u8; 36];
    let n = show::put_hex_spaced(bytes, &mut text, 0);
    say(b":");
    if n <= 36 {
        say(&text[0..n]);
    }
    say(b"\n");
}

fn kind_of(kind: u8, option: u8) -> Kind {
    match kind {
        0 => Kind::Command(option),
        0xFA => Kind::Subnegotiation(option),
        0xFC => Kind::Negotiation(Verb::Wont, option),
        _ => Kind::Data,
    }
}

fn say_answer(answer: Result<usize, Refusal>) {
    match answer {
        Ok(n) => say_number(b"wrote ", n),
        Err(e) => say_number(b"refused ", e.number() as usize),
    }
}

fn write_into(kind: Kind, payload: &[u8], out: &mut [u8]) {
    say_answer(telnet_writer::write(kind, payload, out));
}

fn write_in(kind: Kind, payload: &[u8], room: usize, out: &mut [u8]) {
    if out.len() < room {
        return;
    }
    write_into(kind, payload, &mut out[0..room]);
    say_bytes(out);
}

fn run_case(letter: u8, bytes: &[u8]) {
    let n = bytes.len();
    if n < 3 {
        return;
    }
    let kind = kind_of(bytes[0], bytes[1]);
    let room = usize::from(bytes[2]);
    if letter == b'w' {
        write_in(kind, &bytes[3..n], room, &mut [0x2Eu8; 12]);
        return;
    }
    write_in(kind, &[0u8; 1025], room, &mut [0x2Eu8; 12]);
}

fn run_line(line: &[u8]) {
    let rest = octets_part::part(line, 2, line.len());
    say_name(show_case::title(rest));
    let mut case = [0u8; 64];
    let n = show::read_hex(show_case::digits(rest), &mut case);
    run_case(
        octets_part::byte_at(line, 0),
        octets_part::part(&case, 0, n),
    );
}

fn main() {
    show_case::each_input_line::<4096, _>(run_line);
}
