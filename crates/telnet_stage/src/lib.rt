// The stages of a reader that takes a stream by fragments: what a byte makes of one, its fault, and how many payload
// bytes it keeps. What is right is said in `specs/`.
#![tactic(auto)]

ghost use Rattle.std.specs.Prelude.{◌≡◌};
ghost use Rattle.telnet_stage.specs.Stage.{held_count, fault_of};
ghost use Rattle.telnet_stage.specs.Turn.{turns, after_iac, grows, closes, turn_of};

use refusal::Refusal;
use telnet::{IAC, Kind, Lead, PAYLOAD_LIMIT, SE};
use telnet_fragments::{Fault, Stage};

// What is to be done with a byte: nothing more, it is data, it is kept in the payload, or the call ends, with an event
// or else with a fault.
#[derive(Clone, Copy)]
pub enum Act {
    Waits,
    Gives,
    Keeps,
    Stops(Option<Kind>),
}

// What one byte makes of a reader.
#[derive(Clone, Copy)]
pub struct Turn {
    pub stage: Stage,
    pub count: usize,
    pub act: Act,
}

fn turned(stage: Stage, count: usize, act: Act) -> Turn
    ensures { result ≡ turns stage count act }
{
    Turn { stage, count, act }
}

// A byte after a 255 in data.
#[tactic(auto, unfolding(crate::specs::Turn::after_iac, crate::specs::Turn::leads))]
fn after_iac(count: usize, b: u8) -> Turn
    ensures { result ≡ after_iac count b }
{
    if b == IAC {
        return turned(Stage::Data, count, Act::Gives);
    }
    match telnet_lead::lead_of(b) {
        Lead::Faulty => turned(Stage::Failed(Fault::BadCommand), count, Act::Stops(None)),
        Lead::Opens => turned(Stage::Opening, count, Act::Waits),
        Lead::Negotiates(verb) => turned(Stage::Choosing(verb), count, Act::Waits),
        Lead::Simple => turned(Stage::Data, count, Act::Stops(Some(Kind::Command(b)))),
    }
}

// One more payload byte.
#[tactic(auto, unfolding(crate::specs::Turn::grows))]
fn grow(option: u8, count: usize) -> Turn
    ensures { result ≡ grows option count }
{
    if count < PAYLOAD_LIMIT {
        return turned(Stage::Payload(option), count, Act::Keeps);
    }
    turned(Stage::Failed(Fault::TooLong), count, Act::Stops(None))
}

// A byte after a 255 in a payload.
#[tactic(auto, unfolding(crate::specs::Turn::closes))]
fn close_payload(option: u8, count: usize, b: u8) -> Turn
    ensures { result ≡ closes option count b }
{
    match b {
        IAC => grow(option, count),
        SE => turned(
            Stage::Data,
            count,
            Act::Stops(Some(Kind::Subnegotiation(option))),
        ),
        _ => turned(Stage::Failed(Fault::Undoubled), count, Act::Stops(None)),
    }
}

// What one byte makes of a stage.
#[tactic(auto, unfolding(crate::specs::Turn::turn_of))]
pub fn take_byte(stage: Stage, count: usize, b: u8) -> Turn
    ensures { result ≡ turn_of stage count b }
{
    match stage {
        Stage::Data if b == IAC => turned(Stage::IacSeen, count, Act::Waits),
        Stage::Data => turned(Stage::Data, count, Act::Gives),
        Stage::IacSeen => after_iac(count, b),
        Stage::Choosing(verb) => {
            turned(
                Stage::Data,
                count,
                Act::Stops(Some(Kind::Negotiation(verb, b))),
            )
        }
        Stage::Opening => turned(Stage::Payload(b), 0, Act::Waits),
        Stage::Payload(option) if b == IAC => turned(Stage::Closing(option), count, Act::Waits),
        Stage::Payload(option) => grow(option, count),
        Stage::Closing(option) => close_payload(option, count, b),
        Stage::Failed(fault) => turned(Stage::Failed(fault), count, Act::Stops(None)),
    }
}

// What a stage failed by, if it has failed.
pub fn fault_of(stage: Stage) -> Option<Refusal>
    ensures { result ≡ fault_of stage }
{
    match stage {
        Stage::Failed(fault) => Some(fault.into()),
        _ => None,
    }
}

// How many payload bytes a stage keeps, of so many.
pub fn held_count(stage: Stage, count: usize) -> usize
    ensures { result ≡ held_count stage count }
{
    match stage {
        Stage::Payload(_) | Stage::Closing(_) => count.min(PAYLOAD_LIMIT),
        _ => 0,
    }
}
