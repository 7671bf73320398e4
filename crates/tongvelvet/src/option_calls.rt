// The calls of `export_option`, for a caller in C: each is the function of that name there, with its promise.
ghost use Rattle.std.specs.Prelude.{◌≡◌};
ghost use Rattle.export_option.specs.Numbers.{sides_numbers, sides_named, whose_named, command_named};
ghost use Rattle.export_option.specs.Numbers.{answered_numbers, receive_named, sent_numbers, receive_on_named};
ghost use Rattle.export.specs.Numbers.{numbered, verb_named};
ghost use Rattle.octets.specs.Lent.{outcome};
ghost use Rattle.option_line.specs.Line.{requested_on, heard_on};
ghost use Rattle.option_sides.specs.Session.{all_off, requested};

use export_option::{TvAnswered, TvSent, TvSides};

// Every side off.
#[unsafe(no_mangle)]
pub extern "C" fn tv_sides_fresh() -> TvSides
    ensures { result ≡ sides_numbers all_off }
{
    export_option::tv_sides_fresh()
}

// WILL, WONT, DO or DONT (251 to 254) was received, with its option byte; on is accepted or declined where that is
// open. Refused by 6 where the code is no option command.
#[unsafe(no_mangle)]
pub extern "C" fn tv_sides_receive(sides: TvSides, code: u8, option: u8, accept: bool) -> TvAnswered
    ensures { result ≡ receive_named sides (verb_named code) option accept }
{
    export_option::tv_sides_receive(sides, code, option, accept)
}

// This end asks for our side or the other's to be on or off. Refused by 10, 11, 12 or 13.
#[unsafe(no_mangle)]
pub extern "C" fn tv_sides_request(sides: TvSides, ours: bool, option: u8, on: bool) -> TvAnswered
    ensures { result ≡ answered_numbers sides (requested (sides_named sides) (whose_named ours) option (command_named on)) }
{
    export_option::tv_sides_request(sides, ours, option, on)
}

// WILL, WONT, DO or DONT was received, and the answer goes on the line at a place. Refused by 5; by 6 where the code is
// no option command; by 4 where the answer does not fit.
#[unsafe(no_mangle)]
pub extern "C" fn tv_option_receive(
    sides: TvSides,
    code: u8,
    option: u8,
    accept: bool,
    line: &mut [u8],
    at: usize,
) -> TvSent
    ensures { outcome result line.new ≡ receive_on_named sides (verb_named code) option accept line.old at }
{
    export_option::tv_option_receive(sides, code, option, accept, line, at)
}

// This end asks for our side or the other's to be on or off, and the command goes on the line at a place. Refused by 5;
// by 10, 11, 12 or 13; by 4.
#[unsafe(no_mangle)]
pub extern "C" fn tv_option_request(
    sides: TvSides,
    ours: bool,
    option: u8,
    on: bool,
    line: &mut [u8],
    at: usize,
) -> TvSent
    ensures { outcome result line.new
        ≡ numbered (sent_numbers sides) (requested_on (sides_named sides) (whose_named ours) option (command_named on) line.old at) }
{
    export_option::tv_option_request(sides, ours, option, on, line, at)
}

// This end hears what is at a place of the other's line, and answers on its own line at a place if that is an
// option command. Refused by 5 for either place; by 1, 2, 3 or 6 where it cannot be read; by 4.
#[unsafe(no_mangle)]
pub extern "C" fn tv_option_hear(
    sides: TvSides,
    heard: &[u8],
    from: usize,
    accept: bool,
    line: &mut [u8],
    at: usize,
) -> TvSent
    ensures { outcome result line.new
        ≡ numbered (sent_numbers sides) (heard_on (sides_named sides) heard.now from accept line.old at) }
{
    export_option::tv_option_hear(sides, heard, from, accept, line, at)
}
