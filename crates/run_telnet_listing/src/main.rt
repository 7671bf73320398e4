// Runs the listing on the streams of standard input, one a line: a letter, the case's name, and bytes in hexadecimal
// digits. They are each refusal of the reader and its neighbours, and the mistakes of the specification's list.
//
//     l name: stream        the listing of a stream
//     p name: count tail    the listing of FF FA 18, `count` bytes 41 (a number of two bytes), and a tail
#![tactic(auto)]

fn say(text: &[u8]) {
    io::write_all(1, text);
}

fn say_name(name: &[u8]) {
    say(b"== ");
    say(name);
    say(b"\n");
}

fn list(s: &[u8]) {
    let mut out = [0u8; 512];
    if let Ok(n) = telnet_listing::list(s, &mut out) {
        say(octets_part::part(&out, 0, n));
    }
}

fn list_payload(count: usize, tail: &[u8]) {
    let mut s = [0x41u8; 1032];
    octets::put(b"\xFF\xFA\x18", &mut s, 0);
    if 1025 < count {
        return;
    }
    if 4 < tail.len() {
        return;
    }
    octets::put(tail, &mut s, count + 3);
    list(&s[0..count + 3 + tail.len()]);
}

// The number that two bytes say.
fn number(high: u8, low: u8) -> usize {
    usize::from(u16::from_be_bytes([high, low]))
}

fn run_case(letter: u8, bytes: &[u8]) {
    let n = bytes.len();
    if letter == b'l' {
        list(bytes);
        return;
    }
    if 2 <= n {
        list_payload(number(bytes[0], bytes[1]), &bytes[2..n]);
    }
}

fn run_line(line: &[u8]) {
    let rest = octets_part::part(line, 2, line.len());
    say_name(show_case::title(rest));
    let mut case = [0u8; 64];
    let n = show::read_hex(show_case::digits(rest), &mut case);
    run_case(
        octets_part::byte_at(line, 0),
        octets_part::part(&case, 0, n),
    );
}

fn main() {
    show_case::each_input_line::<4096, _>(run_line);
}
