// "On" and "off" of a side as Telnet's four option commands. What is right is said in `specs/Verbs.antt`.
#![tactic(auto)]

ghost use Rattle.std.specs.Prelude.{◌≡◌};
ghost use Rattle.option_verbs.specs.Verbs.{told_by, verb_for, command_for};

use option_rules::Command;
use telnet::Verb;

// Whose side of an option: ours, which WILL and WONT speak of when we send them, or the other end's.
#[derive(Clone, Copy)]
pub enum Whose {
    Ours,
    Other,
}

// What a command that was received says, and of which side.
#[derive(Clone, Copy)]
pub struct Told {
    pub whose: Whose,
    pub command: Command,
}

// An option command that is to be written, with its option byte.
#[derive(Clone, Copy)]
pub struct Outgoing {
    pub verb: Verb,
    pub option: u8,
}

// What a command that was received says, and of which side.
pub fn told_by(verb: Verb) -> Told
    ensures { result ≡ told_by verb }
{
    match verb {
        Verb::Will => Told {
            whose: Whose::Other,
            command: Command::On,
        },
        Verb::Wont => Told {
            whose: Whose::Other,
            command: Command::Off,
        },
        Verb::Do => Told {
            whose: Whose::Ours,
            command: Command::On,
        },
        Verb::Dont => Told {
            whose: Whose::Ours,
            command: Command::Off,
        },
    }
}

// The command that says on or off of a side.
pub fn verb_for(whose: Whose, command: Command) -> Verb
    ensures { result ≡ verb_for whose command }
{
    match whose {
        Whose::Ours => match command {
            Command::On => Verb::Will,
            Command::Off => Verb::Wont,
        },
        Whose::Other => match command {
            Command::On => Verb::Do,
            Command::Off => Verb::Dont,
        },
    }
}

// The option command that carries what a side sends, if it sends anything.
pub fn command_for(whose: Whose, option: u8, sends: Option<Command>) -> Option<Outgoing>
    ensures { result ≡ command_for whose option sends }
{
    sends.map(|command| Outgoing {
        verb: verb_for(whose, command),
        option,
    })
}
