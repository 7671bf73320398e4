// Runs `set` and `get` of a lent list of variable records on the cases of standard input, one a line: a title, a colon,
// and in hexadecimal digits the place to set and the place to get, a byte each. Of two records of 7s, the record at the
// first place is set to 1, 2, 3, 4, 5 and 6, and that at the second is got.
//
// A line of output has the title, what `set` answered, and the numbers of the record. `stdout` is by hand from the
// promises of `env_list`.
#![tactic(auto)]

use env::VariableRecord;
use env_list::{get, set};
use octets_part::byte_at;

fn say_record(v: VariableRecord) {
    show_case::say_numbers(&[
        v.kind,
        v.name_at,
        v.name_length,
        v.value_at,
        v.value_length,
        v.mark,
    ]);
}

fn say_set(answer: bool) {
    if answer {
        io::write_all(1, b" true");
        return;
    }
    io::write_all(1, b" false");
}

// Says whether record i of two could be set to w, and gives record k.
fn set_and_get(v: VariableRecord, i: usize, w: VariableRecord, k: usize) -> VariableRecord {
    let mut records = [v; 2];
    let answer = set(&mut records, i, w);
    say_set(answer);
    get(&records, k)
}

fn run_case(i: u8, k: u8) {
    let v = VariableRecord {
        kind: 7,
        name_at: 7,
        name_length: 7,
        value_at: 7,
        value_length: 7,
        mark: 7,
    };
    let w = VariableRecord {
        kind: 1,
        name_at: 2,
        name_length: 3,
        value_at: 4,
        value_length: 5,
        mark: 6,
    };
    say_record(set_and_get(v, i as usize, w, k as usize));
}

fn run_line(line: &[u8]) {
    show_case::with_case::<2, _>(line, |case| run_case(byte_at(case, 0), byte_at(case, 1)));
    io::write_all(1, b"\n");
}

fn main() {
    show_case::each_input_line::<1024, _>(run_line);
}
