// The option rules: one side of one option by value. What is right is said in `specs/Table.antt`. The ten sides of a
// session are in the crate `option_sides`; what two such ends do to each other is said in the crate `option_ends`.
#![tactic(auto)]

ghost use Rattle.std.specs.Prelude.{◌≡◌};
ghost use Rattle.option_rules.specs.Table.{to, ◌send◌, ◌note◌, refuse, step_by, rules_of, on_receive, on_request};
ghost use Rattle.option_rules.specs.Table as table;

use refusal::Refusal;

// The options that are carried.
pub const BINARY: u8 = 0;

pub const SUPPRESS_GO_AHEAD: u8 = 3;

pub const TERMINAL_TYPE: u8 = 24;

pub const END_OF_RECORD: u8 = 25;

pub const NEW_ENVIRON: u8 = 39;

// "On" means WILL or DO and "off" WONT or DONT, as the side has it.
#[derive(Clone, Copy)]
pub enum Command {
    On,
    Off,
}

// The state of one side of an option.
#[derive(Clone, Copy)]
pub enum Side {
    Off,
    On,
    WantOff,
    WantOffThenOn,
    WantOn,
    WantOnThenOff,
}

// What a call of a side gives: its successor; a refusal, or the note `OffAnsweredByOn`; and what is to be sent.
#[derive(Clone, Copy)]
pub struct Step {
    pub side: Side,
    pub refusal: Option<Refusal>,
    pub sends: Option<Command>,
}

// Whether an option is one of the five.
#[tactic(auto, unfolding(crate::specs::Table::carried, crate::specs::Table::choose))]
pub fn carried(option: u8) -> bool
    ensures { result ≡ table.carried option }
{
    matches!(
        option,
        BINARY | SUPPRESS_GO_AHEAD | TERMINAL_TYPE | END_OF_RECORD | NEW_ENVIRON
    )
}

// The cells of the table: the successor alone, with a command to send, or with a note; or a refusal, which hands the
// side back as it is.
fn to(side: Side) -> Step
    ensures { result ≡ step_by side (to side) }
{
    Step {
        side,
        refusal: None,
        sends: None,
    }
}

fn send(side: Side, command: Command) -> Step
    ensures { result ≡ step_by side (side send command) }
{
    Step {
        side,
        refusal: None,
        sends: Some(command),
    }
}

fn note(side: Side, what: Refusal) -> Step
    ensures { result ≡ step_by side (side note what) }
{
    Step {
        side,
        refusal: Some(what),
        sends: None,
    }
}

fn refuse(side: Side, refusal: Refusal) -> Step
    ensures { result ≡ step_by side (refuse refusal) }
{
    Step {
        side,
        refusal: Some(refusal),
        sends: None,
    }
}

#[tactic(auto, using(crate::proofs::Chosen::by_table, crate::proofs::Chosen::by_none))]
impl Side {
    // The other end says on; it is accepted or declined where that is open.
    pub fn receive_on(self, option: u8, accept: bool) -> Step
        ensures { result ≡ step_by self ((rules_of option self).receive_on accept) }
    {
        if !carried(option) {
            return send(Side::Off, Command::Off);
        }
        match self {
            Side::Off => {
                if accept {
                    send(Side::On, Command::On)
                } else {
                    send(Side::Off, Command::Off)
                }
            }
            Side::On => to(Side::On),
            Side::WantOff => note(Side::Off, Refusal::OffAnsweredByOn),
            Side::WantOffThenOn => note(Side::On, Refusal::OffAnsweredByOn),
            Side::WantOn => to(Side::On),
            Side::WantOnThenOff => send(Side::WantOff, Command::Off),
        }
    }

    // The other end says off.
    pub fn receive_off(self, option: u8) -> Step
        ensures { result ≡ step_by self (rules_of option self).receive_off }
    {
        if !carried(option) {
            return to(Side::Off);
        }
        match self {
            Side::Off => to(Side::Off),
            Side::On => send(Side::Off, Command::Off),
            Side::WantOff => to(Side::Off),
            Side::WantOffThenOn => send(Side::WantOn, Command::On),
            Side::WantOn => to(Side::Off),
            Side::WantOnThenOff => to(Side::Off),
        }
    }

    // This end asks for on.
    pub fn request_on(self, option: u8) -> Step
        ensures { result ≡ step_by self (rules_of option self).request_on }
    {
        if !carried(option) {
            return refuse(self, Refusal::NotCarried);
        }
        match self {
            Side::Off => send(Side::WantOn, Command::On),
            Side::On => refuse(self, Refusal::AlreadySo),
            Side::WantOff => to(Side::WantOffThenOn),
            Side::WantOffThenOn => refuse(self, Refusal::AlreadyQueued),
            Side::WantOn => refuse(self, Refusal::UnderWay),
            Side::WantOnThenOff => to(Side::WantOn),
        }
    }

    // This end asks for off.
    pub fn request_off(self, option: u8) -> Step
        ensures { result ≡ step_by self (rules_of option self).request_off }
    {
        if !carried(option) {
            return refuse(self, Refusal::NotCarried);
        }
        match self {
            Side::Off => refuse(self, Refusal::AlreadySo),
            Side::On => send(Side::WantOff, Command::Off),
            Side::WantOff => refuse(self, Refusal::UnderWay),
            Side::WantOffThenOn => to(Side::WantOff),
            Side::WantOn => to(Side::WantOnThenOff),
            Side::WantOnThenOff => refuse(self, Refusal::AlreadyQueued),
        }
    }

    // The receipt of what the other end says.
    pub fn receive(self, option: u8, command: Command, accept: bool) -> Step
        ensures { result ≡ on_receive (rules_of option) self accept command }
    {
        match command {
            Command::On => self.receive_on(option, accept),
            Command::Off => self.receive_off(option),
        }
    }

    // The request for what this end asks.
    pub fn request(self, option: u8, command: Command) -> Step
        ensures { result ≡ on_request (rules_of option) self command }
    {
        match command {
            Command::On => self.request_on(option),
            Command::Off => self.request_off(option),
        }
    }
}
