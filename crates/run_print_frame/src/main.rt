// Runs the reader of printer frames on the cases of standard input, one a line: a letter, the case's name, and bytes in
// hexadecimal digits. The frames named after figures and lengths are the records of RFC 4777, sections 11 and 12, each
// as it is between two ends of record, a doubled 255 made one (figure 6's data byte "is optional and in some cases may
// be omitted"); others have the diagnostic information that section 11 lists, other flags, and a fault for each
// refusal.
//
//     r name: frame    a frame
//     z name:          a frame of 65,536 zeros, which cannot say its length
#![tactic(auto)]

use print_frame::{Direction, Flags, Frame, Operation, Part};

fn say(text: &[u8]) {
    io::write_all(1, text);
}

fn say_number(word: &[u8], n: usize) {
    say(word);
    io::print_decimal(1, n as u64);
}

fn say_direction(direction: Direction) {
    match direction {
        Direction::Outbound => say(b"outbound"),
        Direction::Inbound => say(b"inbound"),
    }
}

fn say_operation(operation: Operation) {
    match operation {
        Operation::Print => say(b" print"),
        Operation::Clear => say(b" clear"),
    }
}

fn say_if(set: bool, text: &[u8]) {
    if set {
        say(text);
    }
}

fn say_flags(flags: Flags) {
    say_if(flags.error, b" error");
    say_if(flags.intervention_required, b" intervention");
    say_if(flags.ready, b" ready");
    say_if(flags.first_of_chain, b" first");
    say_if(flags.last_of_chain, b" last");
}

fn say_part(name: &[u8], part: Part) {
    say_number(name, part.length);
    say_number(b" at ", part.place);
}

fn say_frame(frame: Frame) {
    say_direction(frame.direction);
    say_if(frame.diagnostics_included, b" diagnosed");
    say_operation(frame.operation);
    say_flags(frame.flags);
    say_part(b", diagnostics ", frame.diagnostics);
    say_part(b", data ", frame.print_data);
}

fn read(frame: &[u8]) {
    match print_frame::read_frame(frame) {
        Ok(frame) => say_frame(frame),
        Err(e) => say_number(b"refused ", e.number() as usize),
    }
}

fn run_case(letter: u8, bytes: &[u8]) {
    if letter == b'z' {
        read(&[0u8; 65536]);
        return;
    }
    read(bytes);
}

fn run_line(line: &[u8]) {
    let letter = octets_part::byte_at(line, 0);
    show_case::with_case::<1024, _>(octets_part::part(line, 2, line.len()), |bytes| {
        say(b" ");
        run_case(letter, bytes);
        say(b"\n");
    });
}

fn main() {
    show_case::each_input_line::<16384, _>(run_line);
}
