// Two ends of one side of an option, and the lines between them, under any list of calls.
ghost use Rattle.std.specs.Prelude.{◌≡◌, [], ◌∷◌, ◌++◌, ◌+◌, ◌<◌, ◌^◌, take, not, if◌then◌else◌};
ghost use Rattle.option_rules.specs.Table.{rules_of, on_request};
ghost use Rattle.refusal.specs.RefusedBy.{number_or_0};
ghost use Rattle.option_ends.specs.Ends.{requested, taken, call_result, is_refusal};
ghost use Rattle.option_ends.specs.Replay.{act_of, call_of, calls_of, replayed, commands, at_end, both_ends, seen};
ghost use Rattle.option_ends.specs.Internal.Turn.{plus, onward, clipped, leaves, turn};

use crate::{Line, Peer, Replayed};
use option_rules::{Command, Side, Step};
use refusal::Refusal;

impl Line {
    // A command goes last on the line. A third never comes.
    fn push(self, command: Command) -> Line
        ensures { commands result ≡ take 2 (commands self ++ command ∷ []) }
    {
        match self {
            Line::Empty => Line::One(command),
            Line::One(first) => Line::Two(first, command),
            Line::Two(first, second) => Line::Two(first, second),
        }
    }
}

// Whether what a request tells leaves it granted, as a count.
#[tactic(auto, unfolding(crate::specs::Ends::is_refusal))]
fn granting(told: Option<Refusal>) -> u64
    ensures { result ≡ (if not (is_refusal (number_or_0 told)) then 1 else 0) }
{
    match told {
        Some(
            Refusal::NotCarried | Refusal::AlreadySo | Refusal::UnderWay | Refusal::AlreadyQueued,
        ) => 0,
        _ => 1,
    }
}

// What a step of the near end leaves: its successor with the rest of its line, and the other end with what was sent.
#[tactic(auto, using(crate::proofs::Turns::room), unfolding(crate::specs::Ends::sent_by, crate::specs::Ends::is_command))]
fn stepped(step: Step, rest: Line, other: Peer, granted: u64) -> Replayed
    ensures { seen result ≡ clipped (leaves step (commands rest) (at_end other) granted) }
{
    let near = Peer {
        side: step.side,
        line: rest,
    };
    match step.sends {
        None => Replayed {
            near,
            far: other,
            sent: 0,
            granted,
        },
        Some(command) => Replayed {
            near,
            far: Peer {
                line: other.line.push(command),
                ..other
            },
            sent: 1,
            granted,
        },
    }
}

#[tactic(auto, unfolding(crate::specs::Ends::changed, crate::specs::Ends::stepped, crate::specs::Ends::at, crate::specs::Ends::sends, crate::specs::Ends::granted))]
fn request(option: u8, near: Peer, far: Peer, command: Command) -> Replayed
    ensures { seen result ≡ clipped (turn (both_ends near far) (requested (on_request (rules_of option) near.side command))) }
{
    let step = near.side.request(option, command);
    stepped(step, near.line, far, granting(step.refusal))
}

#[tactic(auto, using(crate::proofs::Turns::room), unfolding(crate::specs::Ends::taken, crate::specs::Ends::changed, crate::specs::Ends::stepped, crate::specs::Ends::at, crate::specs::Ends::sends, crate::specs::Ends::granted))]
fn receive(option: u8, near: Peer, far: Peer, accept: bool) -> Replayed
    ensures { seen result ≡ clipped (turn (both_ends near far) (taken (rules_of option) near.side accept (commands near.line))) }
{
    match near.line {
        Line::Empty => Replayed {
            near,
            far,
            sent: 0,
            granted: 0,
        },
        Line::One(first) => {
            let step = near.side.receive(option, first, accept);
            stepped(step, Line::Empty, far, 0)
        }
        Line::Two(first, second) => {
            let step = near.side.receive(option, first, accept);
            stepped(step, Line::One(second), far, 0)
        }
    }
}

// One act of the near end.
#[tactic(auto, unfolding(crate::specs::Replay::act_of, crate::specs::Ends::call_result))]
fn act(option: u8, near: Peer, far: Peer, number: u8) -> Replayed
    ensures { seen result ≡ clipped (turn (both_ends near far) (call_result (rules_of option) (at_end near) (act_of number))) }
{
    match number {
        0 => request(option, near, far, Command::On),
        1 => request(option, near, far, Command::Off),
        2 => receive(option, near, far, true),
        _ => receive(option, near, far, false),
    }
}

// The ends as a turn left them, with its counts added to those before it.
fn added(past: Replayed, turn: Replayed, near: Peer, far: Peer) -> Replayed
    requires { (past.sent + turn.sent < 2 ^ 64) × (past.granted + turn.granted < 2 ^ 64) }
    ensures { seen result ≡ plus (seen past) (seen turn) (both_ends near far) }
{
    Replayed {
        near,
        far,
        sent: past.sent + turn.sent,
        granted: past.granted + turn.granted,
    }
}

// One byte more.
fn next(option: u8, past: Replayed, byte: u8) -> Replayed
    requires { (past.sent + 1 < 2 ^ 64) × (past.granted + 1 < 2 ^ 64) }
    ensures { seen result ≡ clipped (onward (rules_of option) (seen past) (call_of byte)) }
{
    let Replayed { near, far, .. } = past;
    if byte < 4 {
        let turn = act(option, near, far, byte);
        return added(past, turn, turn.near, turn.far);
    }
    if byte < 8 {
        let turn = act(option, far, near, byte - 4);
        return added(past, turn, turn.far, turn.near);
    }
    past
}

// Replays a list of calls, one byte a call, over two fresh ends of one side of an option: where they are after it,
// and the totals over all of it, which fit because each call sends at most one command.
pub fn replay(option: u8, calls: &[u8]) -> Replayed
    ensures { seen result ≡ replayed (rules_of option) (calls_of calls.now) }
{
    let mut past = Replayed {
        near: Peer {
            side: Side::Off,
            line: Line::Empty,
        },
        far: Peer {
            side: Side::Off,
            line: Line::Empty,
        },
        sent: 0,
        granted: 0,
    };
    for byte in calls {
        past = next(option, past, *byte);
    }
    past
}
