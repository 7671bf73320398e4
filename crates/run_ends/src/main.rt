// Two ends of one side of an option, replayed (`option_ends::replay`). First on the cases of standard input, one a
// line: a name, a colon, and in hexadecimal digits an option and the bytes of the calls: 00 to 03 are the near end's
// request on, request off, receive accepting, receive declining; 04 to 07 are the far end's; any other byte is no call
// (`docs/DECISIONS.md`, O9). A line of output has the name, the states of near and far, the commands under way to each,
// the oldest first, the commands sent, and the requests not refused.
//
// Then the fault that ran all night, looked for: the two ends make every list of at most five calls, and take what is
// under way, in turn, all accepting or all declining. The program prints how many runs that makes, the most commands
// seen under way in one direction, the most commands sent in one run, the runs that did not come to rest, and over all
// runs together the commands sent and the requests not refused.
//
// `stdout` is from a model of the specification's table and of its "Two ends, for demand 3", written from the paper in
// another language and not from this program. Note 14 has no case: no list leads to it (the model walked all 54 pairs
// of ends that there are). The nearest is an on under way to WantOff, which comes after an off.
#![tactic(auto)]

ghost use Rattle.std.specs.Prelude.{◌≡◌, ◌%◌};

use option_ends::{Line, Peer, Replayed};
use option_rules::{Command, Side};

// Nine digits for each of five calls, eight of them calls and one none; twice, for accepting and declining.
const RUNS: u32 = 118098;

#[derive(Clone, Copy)]
struct Night {
    deep: u64,
    sent: u64,
    granted: u64,
    rests: bool,
}

#[derive(Clone, Copy)]
struct Tally {
    deep: u64,
    most: u64,
    restless: u32,
    sent: u64,
    granted: u64,
}

fn say(text: &[u8]) {
    io::write_all(1, text);
}

fn say_count(name: &[u8], n: u64) {
    say(name);
    io::print_decimal(1, n);
}

fn say_state(peer: Peer) {
    match peer.side {
        Side::Off => say(b" Off"),
        Side::On => say(b" On"),
        Side::WantOff => say(b" WantOff"),
        Side::WantOffThenOn => say(b" WantOffThenOn"),
        Side::WantOn => say(b" WantOn"),
        Side::WantOnThenOff => say(b" WantOnThenOff"),
    }
}

fn say_command(command: Command) {
    match command {
        Command::On => say(b" on"),
        Command::Off => say(b" off"),
    }
}

fn say_coming(name: &[u8], peer: Peer) {
    say(name);
    match peer.line {
        Line::Empty => say(b" -"),
        Line::One(first) => say_command(first),
        Line::Two(first, second) => {
            say_command(first);
            say_command(second);
        }
    }
}

fn say_replayed(option: u8, calls: &[u8]) {
    let r = option_ends::replay(option, calls);
    say_state(r.near);
    say_state(r.far);
    say_coming(b", to near", r.near);
    say_coming(b", to far", r.far);
    say_count(b", sent ", r.sent);
    say_count(b", not refused ", r.granted);
}

// An option, and the calls.
fn run_case(case: &[u8]) {
    say_replayed(
        octets_part::byte_at(case, 0),
        octets_part::part(case, 1, case.len()),
    );
}

fn run_line(line: &[u8]) {
    show_case::with_case::<64, _>(line, run_case);
    say(b"\n");
}

fn depth(peer: Peer) -> u64 {
    match peer.line {
        Line::Empty => 0,
        Line::One(_) => 1,
        Line::Two(_, _) => 2,
    }
}

// Whether an end is on, where it rests and nothing is under way to it.
fn resting(peer: Peer) -> Option<bool> {
    match peer.line {
        Line::Empty => {}
        _ => return None,
    }
    match peer.side {
        Side::Off => Some(false),
        Side::On => Some(true),
        _ => None,
    }
}

fn agree(near: Peer, far: Peer) -> bool {
    match resting(near) {
        Some(on) => resting(far) == Some(on),
        None => false,
    }
}

fn digit(n: u32) -> u8
    ensures { result ≡ n % 9 }
{
    (n % 9) as u8
}

// Five calls by the digits of the run's number, then receipts of what is under way.
fn one_night(run: u32) -> Night {
    let list = run / 2;
    let near = 2 + digit(run % 2);
    let far = 6 + digit(run % 2);
    let calls = [
        digit(list),
        digit(list / 9),
        digit(list / 81),
        digit(list / 729),
        digit(list / 6561),
        near,
        far,
        near,
        far,
        near,
        far,
        near,
        far,
        near,
        far,
    ];
    let early = option_ends::replay(option_rules::TERMINAL_TYPE, &calls[..5]);
    let late = option_ends::replay(option_rules::TERMINAL_TYPE, &calls);
    Night {
        deep: depth(early.near).max(depth(early.far)),
        sent: late.sent,
        granted: late.granted,
        rests: agree(late.near, late.far),
    }
}

// The sums are far from where they would wrap: a run has at most fifteen calls.
fn every_night() -> Tally {
    let mut deep = 0u64;
    let mut most = 0u64;
    let mut restless = 0;
    let mut sent = 0u64;
    let mut granted = 0u64;
    for run in 0..RUNS {
        let n = one_night(run);
        deep = deep.max(n.deep);
        most = most.max(n.sent);
        sent = sent.wrapping_add(n.sent);
        granted = granted.wrapping_add(n.granted);
        if !n.rests {
            restless += 1;
        }
    }
    Tally {
        deep,
        most,
        restless,
        sent,
        granted,
    }
}

fn say_tally(all: Tally) {
    say_count(b"runs ", RUNS as u64);
    say_count(b"\nmost under way ", all.deep);
    say_count(b"\nmost sent ", all.most);
    say_count(b"\nrestless ", all.restless as u64);
    say_count(b"\nsent in all runs ", all.sent);
    say_count(b"\nnot refused in all runs ", all.granted);
    say(b"\n");
}

fn main() {
    show_case::each_input_line::<4096, _>(run_line);
    say_tally(every_night());
}
