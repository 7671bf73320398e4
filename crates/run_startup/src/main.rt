// Writes the start-up response record of the cases of standard input, one a line: what is written first, a colon, and
// in hexadecimal digits the fault of the device (01 where there is one), the verdict (00 panel, 01 not known, 02
// disabled, 03 failed, 04 grant), how many bytes are lent, how many the system's name has, that name, and the device's.
// The lent bytes are EE before the call.
//
// A line of output is the answer and every lent byte after the call. The first three records of `stdout` are those of
// RFC 4777: figures 1 and 2 of section 10, and section 12. The others were computed by a Python rendering of the
// figures and of the specification ("Response records", "Refusal numbers" 4 and 36), with Python's codec cp037 for
// EBCDIC.
#![tactic(auto)]

use signon::Verdict;

fn say_number(word: &[u8], n: usize) {
    io::write_all(1, word);
    io::print_decimal(1, n as u64);
}

fn say_bytes(bytes: &[u8]) {
    let mut text = [0u8; 240];
    let n = show::put_hex_spaced(bytes, &mut text, 0);
    io::write_all(1, octets_part::part(&text, 0, n));
}

fn respond(fault: bool, verdict: Verdict, system: &[u8], device: &[u8], out: &mut [u8]) {
    match startup_record::response(fault, verdict, system, device, out) {
        Ok(n) => say_number(b" wrote ", n),
        Err(e) => say_number(b" refused ", e.number() as usize),
    }
    say_bytes(out);
}

fn respond_in(room: usize, fault: bool, verdict: Verdict, system: &[u8], device: &[u8]) {
    let mut out = [0xEEu8; 80];
    if room <= 80 {
        respond(fault, verdict, system, device, &mut out[0..room]);
    }
}

fn verdict_of(b: u8) -> Verdict {
    match b {
        0 => Verdict::Panel,
        1 => Verdict::NotKnown,
        2 => Verdict::Disabled,
        3 => Verdict::Failed,
        _ => Verdict::Grant,
    }
}

// The system's name begins after the fault, the verdict, the room and its own length; the device's is the rest.
fn run_case(case: &[u8]) {
    let n = octets_part::byte_at(case, 3) as usize;
    respond_in(
        octets_part::byte_at(case, 2) as usize,
        octets_part::byte_at(case, 0) == 1,
        verdict_of(octets_part::byte_at(case, 1)),
        octets_part::part(case, 4, n),
        octets_part::part(case, 4 + n, case.len()),
    );
}

fn run_line(line: &[u8]) {
    show_case::with_case::<64, _>(line, run_case);
    io::write_all(1, b"\n");
}

fn main() {
    show_case::each_input_line::<8192, _>(run_line);
}
