// The ten sides of a session. What is right is said in `specs/Session.antt`. The rules that step a side are in the
// crate `option_rules`; what a side says as an option command of the line is in the crate `option_verbs`.
#![tactic(auto)]

mod session;

use option_rules::Side;
use option_verbs::Outgoing;
use refusal::Refusal;

// The two sides of one option.
#[derive(Clone, Copy)]
pub struct Pair {
    pub ours: Side,
    pub other: Side,
}

// The ten sides of a session.
#[derive(Clone, Copy)]
pub struct Sides {
    pub binary: Pair,
    pub suppress_go_ahead: Pair,
    pub terminal: Pair,
    pub records: Pair,
    pub environ: Pair,
}

// What a call of a session's sides gives: their successors; a refusal, or the note `OffAnsweredByOn`; and what is to be
// written.
#[derive(Clone, Copy)]
pub struct Answered {
    pub sides: Sides,
    pub refusal: Option<Refusal>,
    pub writes: Option<Outgoing>,
}
