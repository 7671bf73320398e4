// The fourth part of a printer session: the start-up response record. What passes the line is said in
// `specs/Responded.antt`. What is said of it goes to standard output, of which no contract speaks.
#![tactic(auto)]

ghost use Rattle.std.specs.Prelude.{◌≡◌, false};
ghost use Rattle.octets.specs.Lent.{outcome};
ghost use Rattle.startup.specs.Response.{response_of};
ghost use Rattle.show_event.specs.Sent.{sent_all};
ghost use Rattle.play_response.specs.Responded.{system, device, responded};

use show_event::Sender;
use signon::Verdict;

fn record_of(verdict: Verdict) -> [u8; 73]
    ensures { result ≡ response_of false verdict system device }
{
    let mut record = [0u8; 73];
    let _ = startup_record::response(false, verdict, b"TARGET", b"PCPRINTER", &mut record);
    record
}

// A digit or the I of a response code, which is EBCDIC.
fn ascii(b: u8) -> u8 {
    if b == 0xC9 {
        return b'I';
    }
    b & 0x3F
}

// The response code of a record.
fn say_code(record: &[u8]) {
    let code = [16, 17, 18, 19].map(|at| ascii(octets_part::byte_at(record, at)));
    io::write_all(1, &[b':', b' ', code[0], code[1], code[2], code[3]]);
}

// The printer reads the record at a place.
fn hear(down: &[u8], at: usize) {
    let mut record = [0u8; 73];
    let _ = telnet_records::read_record(down, at, &mut record);
    say_code(&record);
}

// The host responds to the verdict, and the printer reads it. The answer is the place after it.
pub fn respond(verdict: Verdict, down: &mut [u8], at: usize) -> usize
    ensures { outcome result down.new ≡ sent_all (responded verdict) down.old at }
{
    let end = show_event::send_record(Sender::Host, &record_of(verdict), down, at);
    hear(octets_part::part(down, 0, end), at);
    end
}
