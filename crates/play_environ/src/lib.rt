// The second part of a printer session: the host asks for the environment, and the printer sends it, each in a
// subnegotiation of NEW-ENVIRON. What passes the lines is said in `specs/Environment.antt`. What is said of it goes to
// standard output, of which no contract speaks.
#![tactic(auto)]

ghost use Rattle.std.specs.Prelude.{◌≡◌};
ghost use Rattle.octets.specs.Lent.{outcome};
ghost use Rattle.show_event.specs.Sent.{sent_at};
ghost use Rattle.play_environ.specs.Environment.{request, asked, told, environment};

use env::{ESC, USERVAR, VAR};
use show_event::Sender;
use telnet::Kind;

// The request for all variables, with the server's seed after the name IBMRSEED. A seed is random: without its ESCs one
// of nine would end the name.
fn send_request() -> [u8; 24]
    ensures { result ≡ request }
{
    let mut payload = *b"\x01\x03IBMRSEED............\x00\x03";
    octets_marked::put_marked(&play::SEED, ESC, VAR, USERVAR, &mut payload, 10);
    payload
}

// The host asks for all variables, and gives its seed with the name of the printer's. The answer is the place after it.
pub fn ask(down: &mut [u8], at: usize) -> usize
    ensures { outcome result down.new ≡ sent_at asked down.old at }
{
    let end = show_event::send_event(
        Sender::Host,
        Kind::Subnegotiation(option_rules::NEW_ENVIRON),
        &send_request(),
        down,
        at,
    );
    io::write_all(1, b": SEND");
    end
}

// The printer's variables as a payload. They are given to the writer by their kinds, the places and lengths of names
// and values, and marks.
fn payload() -> [u8; 69]
    ensures { result ≡ environment }
{
    let bytes =
        b"USERUSER123IBMRSEED\x08\xBE\xF6\x62\xD8\x51\xF4\xB1IBMSUBSPW\xA3\x2E\x34\xA4\x64\x28\x4A\x94DEVNAMEPCPRINTER";
    let places = [
        0usize, 0, 4, 4, 7, 0, 3, 11, 8, 19, 8, 0, 3, 27, 9, 36, 8, 0, 3, 44, 7, 51, 9, 0,
    ];
    let mut written = [0u8; 69];
    let _ = env_writer::write(0, bytes, &places, &mut written);
    written
}

// The printer tells its environment. The answer is the place after it.
pub fn tell(up: &mut [u8], at: usize) -> usize
    ensures { outcome result up.new ≡ sent_at told up.old at }
{
    show_event::send_event(
        Sender::Printer,
        Kind::Subnegotiation(option_rules::NEW_ENVIRON),
        &payload(),
        up,
        at,
    )
}
