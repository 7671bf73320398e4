// Runs the calls for C on verdicts and reasons, on the cases of standard input, one a line: a title, a colon, and in
// hexadecimal digits a byte that says which call, and its arguments. A line of output has the title and the numbers of
// the answer in the order of its struct. `stdin` and `stdout` were made by a Python script from the constants of
// include/tongvelvet.h, the sign-ons of `run_signon` and those of `run_explain`: every verdict, and every reason.
// Response records are in `run_export_response`.
#![tactic(auto)]

use show_case::say_values;

// A sign-on: the seed has eight bytes, then the length of the table, the table and the payload.
fn judge(case: &[u8]) {
    let table = octets_part::byte_at(case, 8) as usize;
    let v = export_signon::tv_verdict(
        octets_part::part(case, 0, 8),
        octets_part::part(case, 9, table),
        octets_part::part(case, 9 + table, case.len()),
    );
    say_values(&[v.refusal, v.verdict]);
}

fn explain(case: &[u8]) {
    let table = octets_part::byte_at(case, 8) as usize;
    let e = export_signon::tv_explain(
        octets_part::part(case, 0, 8),
        octets_part::part(case, 9, table),
        octets_part::part(case, 9 + table, case.len()),
    );
    say_values(&[e.refusal, e.reason]);
}

fn run_case(case: &[u8]) {
    let rest = octets_part::part(case, 1, case.len());
    match octets_part::byte_at(case, 0) {
        11 => explain(rest),
        _ => judge(rest),
    }
}

fn run_line(line: &[u8]) {
    show_case::with_case::<1280, _>(line, run_case);
    io::write_all(1, b"\n");
}

fn main() {
    show_case::each_input_line::<32768, _>(run_line);
}
