// Runs names and their EBCDIC on the cases of standard input, one a line: a letter, the case's name, a colon, and bytes
// in hexadecimal digits.
//
//     e name: bytes                    the EBCDIC of each byte
//     n name: text                     the profile, device and system name that a text gives, each with its length; no name has length 0
//     i name: limit text               whether a text is a name of at most `limit` bytes
//     p name: room place width text    the EBCDIC of a text padded to a width, put at a place of so much room of twenty bytes, which are 2E before
//
// `stdout` is from the specification ("Tokens, substitutes, verdicts", "Response records"), with `docs/DECISIONS.md`,
// N10 and N11, for what no name has.
#![tactic(auto)]

use names::Name;

fn say(text: &[u8]) {
    io::write_all(1, text);
}

fn say_bytes(bytes: &[u8]) {
    let mut text = [0u8; 60];
    let n = show::put_hex_spaced(bytes, &mut text, 0);
    if n <= 60 {
        say(&text[0..n]);
    }
}

fn say_truth(b: bool) {
    if b {
        say(b" yes");
        return;
    }
    say(b" no");
}

fn say_ebcdic(bytes: &[u8]) {
    for b in bytes {
        say_bytes(&[names::ebcdic(*b)]);
    }
}

fn say_name(name: Name) {
    say(b" ");
    io::print_decimal(1, name.length as u64);
    say(b",");
    say_bytes(&name.bytes);
}

fn say_names(text: &[u8]) {
    say_name(names::profile_name(text));
    say(b";");
    say_name(names::device_name(text));
    say(b";");
    say_name(names::system_name(text));
}

fn put_in(text: &[u8], width: usize, at: usize, room: usize, out: &mut [u8]) {
    if out.len() < room {
        return;
    }
    say_truth(names_ebcdic::put_ebcdic(text, width, &mut out[0..room], at));
    say_bytes(out);
}

fn run_limited(bytes: &[u8]) {
    let n = bytes.len();
    if 1 <= n {
        say_truth(names::is_name(&bytes[1..n], usize::from(bytes[0])));
    }
}

fn run_put(bytes: &[u8]) {
    let n = bytes.len();
    if 3 <= n {
        put_in(
            &bytes[3..n],
            usize::from(bytes[2]),
            usize::from(bytes[1]),
            usize::from(bytes[0]),
            &mut [0x2Eu8; 20],
        );
    }
}

fn run_case(letter: u8, bytes: &[u8]) {
    match letter {
        b'e' => say_ebcdic(bytes),
        b'n' => say_names(bytes),
        b'i' => run_limited(bytes),
        _ => run_put(bytes),
    }
}

fn run_line(line: &[u8]) {
    let case = octets_part::part(line, 2, line.len());
    show_case::with_case::<64, _>(case, |bytes| run_case(octets_part::byte_at(line, 0), bytes));
    say(b"\n");
}

fn main() {
    show_case::each_input_line::<8192, _>(run_line);
}
