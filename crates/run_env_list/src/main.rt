// Runs the reader of environment strings into a lent list of variable records, on the cases of standard input, which
// are laid out as those of `run_env_reader`: the room lent for numbers is RECORD_WIDTH times the records lent, at most
// 66.
//
// The list is filled with records of 7s before the call, so that a line of output is that of `run_env_reader`: the
// answer, all lent bytes, and the numbers of every lent record. `stdout` is that of `run_env_reader` for the same
// cases.
#![tactic(auto)]

ghost use Rattle.std.specs.Prelude.{◌≤◌};

use env::{RECORD_WIDTH, VariableRecord};
use env_delivery::Payload;
use env_list::read_records;
use octets_part::part;
use refusal::Refusal;
use show_numbers::number_at;

fn say(text: &[u8]) {
    io::write_all(1, text);
}

fn say_answer(answer: Result<Payload, Refusal>) {
    match answer {
        Ok(p) => {
            say(b" read");
            show_case::say_numbers(&[p.first as usize, p.count, p.used]);
        }
        Err(e) => {
            say(b" refused");
            show_case::say_values(&[e.number()]);
        }
    }
}

// Bytes between semicolons, of which the text is full at first.
fn say_bytes(bytes: &[u8]) {
    let mut text = [b';'; 3302];
    let n = show::put_hex_spaced(bytes, &mut text, 1);
    if n <= 3301 {
        say(&text[0..n + 1]);
    }
}

fn say_record(v: VariableRecord) {
    show_case::say_numbers(&[
        v.kind,
        v.name_at,
        v.name_length,
        v.value_at,
        v.value_length,
        v.mark,
    ]);
}

// Says the answer to a payload that is read into the first n of 66 records, and gives the records.
fn read_into(payload: &[u8], bytes: &mut [u8], n: usize, v: VariableRecord) -> [VariableRecord; 66]
    requires { n ≤ 66 }
{
    let mut records = [v; 66];
    let answer = read_records(payload, bytes, &mut records[..n]);
    say_answer(answer);
    records
}

fn say_records(records: &[VariableRecord]) {
    for v in records {
        say_record(*v);
    }
}

fn read_list(payload: &[u8], bytes: &mut [u8], n: usize)
    requires { n ≤ 66 }
{
    let sevens = VariableRecord {
        kind: 7,
        name_at: 7,
        name_length: 7,
        value_at: 7,
        value_length: 7,
        mark: 7,
    };
    let records = read_into(payload, bytes, n, sevens);
    say_bytes(bytes);
    say_records(&records[..n]);
    say(b"\n");
}

fn read_in(payload: &[u8], room: usize, list: usize) {
    let mut bytes = [0xEEu8; 1100];
    if 1100 < room {
        return;
    }
    if list <= 66 {
        read_list(payload, &mut bytes[0..room], list);
    }
}

fn run_case(bytes: &[u8]) {
    read_in(
        part(bytes, 4, bytes.len()),
        number_at(bytes, 0),
        number_at(bytes, 2) / RECORD_WIDTH,
    );
}

// A line that has no colon is said as it is.
fn run_line(line: &[u8]) {
    if show_case::is_title(line) {
        say(line);
        say(b"\n");
        return;
    }
    show_case::with_case::<2200, _>(line, run_case);
}

fn main() {
    show_case::each_input_line::<81920, _>(run_line);
}
