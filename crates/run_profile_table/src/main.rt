// Runs the check and the look-up of profile tables on the cases of standard input, one a line: what is written first, a
// colon, and in hexadecimal digits 00 or 01, how many bytes the name to look up has, the name, and the table. After 01,
// what is given comes after the version byte and 500 good records, whose names are A100 to A599 and whose tokens are
// text.
//
// A line of output is how many profiles the table has, and then the place of the name's record, its two marks (01 where
// one is set) and its two tokens. `stdout` was computed by a Python rendering of the specification ("Tokens,
// substitutes, verdicts", "Refusal numbers" 30 to 32).
#![tactic(auto)]

use profile_table::Entry;

fn say_number(word: &[u8], n: usize) {
    io::write_all(1, word);
    io::print_decimal(1, n as u64);
}

fn say_bytes(bytes: &[u8]) {
    let mut text = [b' '; 41];
    let n = show::put_hex(bytes, &mut text, 1);
    if n <= 41 {
        io::write_all(1, &text[0..n]);
    }
}

fn say_entry(table: &[u8], entry: Entry) {
    let at = entry.at;
    say_number(b"; at ", at);
    say_bytes(&[entry.enabled as u8, entry.des_allowed as u8]);
    if profile_tokens::enabled(table, at) != entry.enabled {
        io::write_all(1, b" by its record otherwise");
    }
    say_bytes(profile_tokens::des_token(table, at));
    say_bytes(profile_tokens::sha_token(table, at));
}

fn run_table(table: &[u8], name: &[u8]) {
    match profile_table::check(table) {
        Ok(n) => say_number(b" profiles ", n),
        Err(e) => say_number(b" refused ", e.number() as usize),
    }
    match profile_table::find(table, name) {
        Ok(Some(entry)) => say_entry(table, entry),
        Ok(None) => {
            io::write_all(1, b"; absent");
        }
        Err(e) => say_number(b"; refused ", e.number() as usize),
    }
}

// Puts the record of a number of three digits at a place of the table.
fn put_record(n: u64, table: &mut [u8], at: usize) -> usize {
    let name = show::put_text(b"\x00\x22\x03\x04A", table, at);
    let tokens = show::put_number(n, table, name);
    show::put_text(b"by DES, by SHA-1: 20 bytes..", table, tokens)
}

// Puts the records of the numbers from 100 up to one; the answer is the place after them.
fn put_records(end: u64, table: &mut [u8], at: usize) -> usize {
    let mut place = at;
    for n in 100..end {
        place = put_record(n, table, place);
    }
    place
}

// The table begins with `first` bytes 01 and the records up to a number.
fn run_given(first: usize, end: u64, name: &[u8], given: &[u8]) {
    let mut table = [1u8; 20000];
    let at = put_records(end, &mut table, first);
    let n = show::put_text(given, &mut table, at);
    if n <= 20000 {
        run_table(&table[0..n], name);
    }
}

// The name begins after the first two bytes.
fn run_case(first: u8, name_length: u8, case: &[u8]) {
    let n = name_length as usize;
    run_given(
        first as usize,
        100 + 500 * (first as u64),
        octets_part::part(case, 2, n),
        octets_part::part(case, 2 + n, case.len()),
    );
}

fn run_line(line: &[u8]) {
    let mut case = [0u8; 512];
    let n = show_case::begin_case(line, &mut case);
    run_case(case[0], case[1], octets_part::part(&case, 0, n));
    io::write_all(1, b"\n");
}

fn main() {
    show_case::each_input_line::<32768, _>(run_line);
}
