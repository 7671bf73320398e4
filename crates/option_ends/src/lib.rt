// Two ends of one side of an option, with a line each way, under any list of calls. What holds of them is said in
// `specs/`: start with `Ends.antt`; demand 3 is `Agreement.antt`.
#![tactic(auto)]

mod replaying;

use option_rules::{Command, Side};
pub use replaying::replay;

// The commands on the way to an end, the oldest first.
#[derive(Clone, Copy)]
pub enum Line {
    Empty,
    One(Command),
    Two(Command, Command),
}

// One of two ends, with the line to it.
#[derive(Clone, Copy)]
pub struct Peer {
    pub side: Side,
    pub line: Line,
}

// Two ends after a list of calls, with the commands sent and the requests not refused in the whole list.
#[derive(Clone, Copy)]
pub struct Replayed {
    pub near: Peer,
    pub far: Peer,
    pub sent: u64,
    pub granted: u64,
}
