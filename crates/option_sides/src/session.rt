// The ten sides of a session.
ghost use Rattle.std.specs.Prelude.{◌≡◌};
ghost use Rattle.option_sides.specs.Session.{of_pair, in_pair, pair_at, with_pair, side_at, all_off, answered_by, received, requested};

use crate::{Answered, Pair, Sides};
use option_rules::{Command, Side, Step};
use option_verbs::{Told, Whose};
use telnet::Verb;

const BOTH_OFF: Pair = Pair {
    ours: Side::Off,
    other: Side::Off,
};

impl Pair {
    fn side(self, whose: Whose) -> Side
        ensures { result ≡ of_pair self whose }
    {
        match whose {
            Whose::Ours => self.ours,
            Whose::Other => self.other,
        }
    }

    fn with(self, whose: Whose, side: Side) -> Pair
        ensures { result ≡ in_pair self whose side }
    {
        match whose {
            Whose::Ours => Pair { ours: side, ..self },
            Whose::Other => Pair {
                other: side,
                ..self
            },
        }
    }
}

impl Sides {
    // Every side off.
    pub fn fresh() -> Sides
        ensures { result ≡ all_off }
    {
        Sides {
            binary: BOTH_OFF,
            suppress_go_ahead: BOTH_OFF,
            terminal: BOTH_OFF,
            records: BOTH_OFF,
            environ: BOTH_OFF,
        }
    }

    #[tactic(auto, unfolding(crate::specs::Session::pair_at, option_rules::specs::Table::choose))]
    fn pair(self, option: u8) -> Pair
        ensures { result ≡ pair_at self option }
    {
        match option {
            option_rules::BINARY => self.binary,
            option_rules::SUPPRESS_GO_AHEAD => self.suppress_go_ahead,
            option_rules::TERMINAL_TYPE => self.terminal,
            option_rules::END_OF_RECORD => self.records,
            option_rules::NEW_ENVIRON => self.environ,
            _ => BOTH_OFF,
        }
    }

    #[tactic(auto, unfolding(crate::specs::Session::with_pair, option_rules::specs::Table::choose))]
    fn with(mut self, option: u8, pair: Pair) -> Sides
        ensures { result ≡ with_pair self option pair }
    {
        match option {
            option_rules::BINARY => self.binary = pair,
            option_rules::SUPPRESS_GO_AHEAD => self.suppress_go_ahead = pair,
            option_rules::TERMINAL_TYPE => self.terminal = pair,
            option_rules::END_OF_RECORD => self.records = pair,
            option_rules::NEW_ENVIRON => self.environ = pair,
            _ => {}
        }
        self
    }

    // The state of a side; off for an option that is not carried.
    pub fn side(self, whose: Whose, option: u8) -> Side
        ensures { result ≡ side_at self whose option }
    {
        self.pair(option).side(whose)
    }

    // The sides with one of them stepped, and what that is to write.
    fn stepped(self, whose: Whose, option: u8, step: Step) -> Answered
        ensures { result ≡ answered_by self whose option step }
    {
        let pair = self.pair(option).with(whose, step.side);
        Answered {
            sides: self.with(option, pair),
            refusal: step.refusal,
            writes: option_verbs::command_for(whose, option, step.sends),
        }
    }

    // WILL, WONT, DO or DONT was received, with its option byte; on is accepted or declined where that is open.
    pub fn receive(self, verb: Verb, option: u8, accept: bool) -> Answered
        ensures { result ≡ received self verb option accept }
    {
        let Told { whose, command } = option_verbs::told_by(verb);
        let side = self.side(whose, option);
        self.stepped(whose, option, side.receive(option, command, accept))
    }

    // This end asks for a side to be on or off.
    pub fn request(self, whose: Whose, option: u8, command: Command) -> Answered
        ensures { result ≡ requested self whose option command }
    {
        let side = self.side(whose, option);
        self.stepped(whose, option, side.request(option, command))
    }
}
