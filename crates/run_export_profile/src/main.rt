// Runs the calls for C on the profile table and its records, on the cases of standard input, one a line: a title, a
// colon, and in hexadecimal digits a byte that says which call, a byte for the marks (01 enabled, 02 DES allowed), how
// long the lent buffer is, a name after its two-byte length, and a table or a password. A table is checked, and the
// name looked up in it; after 01, what is given comes after the version byte and 500 good records, A100 to A599. After
// 02 a record is made. A line of output has the title, the numbers of each answer in the order of its struct, and the
// buffer that was lent, to its end; it is 2E before. `stdin` and `stdout` were made by a Python script from the
// constants of include/tongvelvet.h and the specification ("Tokens, substitutes, verdicts", "Refusal numbers"): every
// mark, every refusal, which comes first, the 500th and the 501st profile, and each room with one byte less.
#![tactic(auto)]

use show_case::say_numbers;

fn check(table: &[u8]) {
    let t = export_profile::tv_table_check(table);
    say_numbers(&[t.refusal as usize, t.profiles]);
}

fn find(table: &[u8], name: &[u8]) {
    let f = export_profile::tv_table_find(table, name);
    say_numbers(&[
        f.refusal as usize,
        f.present as usize,
        f.enabled as usize,
        f.des_allowed as usize,
        f.at,
    ]);
}

fn run_table(table: &[u8], name: &[u8]) {
    check(table);
    io::write_all(1, b";");
    find(table, name);
}

// Puts the record of a number of three digits at a place of the table; the answer is the place after it.
fn put_record(n: u64, table: &mut [u8], at: usize) -> usize {
    let digits = show::put_text(b"\x00\x22\x03\x04A", table, at);
    let tokens = show::put_number(n, table, digits);
    show::put_text(b"eight...and twenty bytes....", table, tokens)
}

fn put_records(table: &mut [u8], at: usize) -> usize {
    let mut place = at;
    for n in 100..600 {
        place = put_record(n, table, place);
    }
    place
}

// The version byte is there already.
fn run_long_table(name: &[u8], given: &[u8]) {
    let mut table = [1u8; 20000];
    let at = put_records(&mut table, 1);
    let n = show::put_text(given, &mut table, at);
    if n <= 20000 {
        run_table(&table[0..n], name);
    }
}

fn make(name: &[u8], password: &[u8], marks: u8, out: &mut [u8]) {
    let w = export_profile::tv_make_record(name, password, marks & 1 == 1, marks & 2 == 2, out);
    say_numbers(&[w.refusal as usize, w.length]);
    show_case::say_bytes(out);
}

fn make_in(name: &[u8], password: &[u8], marks: u8, room: u8) {
    let mut out = [0x2Eu8; 255];
    make(name, password, marks, &mut out[0..room as usize]);
}

fn run_case(case: &[u8]) {
    let name = show_input::announced(case, 3);
    let given = show_input::left_after(case, 3);
    match octets_part::byte_at(case, 0) {
        0 => run_table(given, name),
        1 => run_long_table(name, given),
        _ => make_in(
            name,
            given,
            octets_part::byte_at(case, 1),
            octets_part::byte_at(case, 2),
        ),
    }
}

fn run_line(line: &[u8]) {
    show_case::with_case::<512, _>(line, run_case);
    io::write_all(1, b"\n");
}

fn main() {
    show_case::each_input_line::<16384, _>(run_line);
}
