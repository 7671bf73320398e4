// The third part of a printer session: the host's verdict on what the printer told. What is right is said in
// `specs/Judged.antt` and in the crate `signon`. What is said of it goes to standard output, of which no contract
// speaks.
#![tactic(auto)]

ghost use Rattle.std.specs.Prelude.{◌≡◌};
ghost use Rattle.signon.specs.Verdict.{answer_of};
ghost use Rattle.play.specs.Seed.{server_seed};
ghost use Rattle.play_signon.specs.Judged.{verdict_by, length_of, judged};

use refusal::Refusal;
use signon::Verdict;
use telnet_reader::Found;

fn say(words: &[u8]) {
    io::write_all(1, words);
}

fn say_verdict(verdict: Verdict) {
    match verdict {
        Verdict::Panel => say(b": PANEL"),
        Verdict::NotKnown => say(b": 0002"),
        Verdict::Disabled => say(b": 0003"),
        Verdict::Failed => say(b": 0004"),
        Verdict::Grant => say(b": GRANT"),
    }
}

// A payload that is refused fails.
fn verdict_by(answer: Result<Verdict, Refusal>) -> Verdict
    ensures { result ≡ verdict_by answer }
{
    answer.unwrap_or(Verdict::Failed)
}

// How many bytes were read.
fn length_of(answer: Result<Option<Found>, Refusal>) -> usize
    ensures { result ≡ length_of answer }
{
    match answer {
        Ok(Some(found)) => found.length,
        _ => 0,
    }
}

// The host's verdict on a payload, under the seed that the host gave.
fn answer_to(table: &[u8], payload: &[u8]) -> Result<Verdict, Refusal>
    ensures { result ≡ answer_of server_seed table.now payload.now }
{
    signon_verdict::verdict(&play::SEED, table, payload)
}

// The host's verdict on the payload at a place of the printer's line.
#[tactic(auto, unfolding(crate::specs::Judged::judged))]
pub fn judge(table: &[u8], up: &[u8], at: usize) -> Verdict
    ensures { result ≡ judged table.now up.now at }
{
    let mut payload = [0u8; telnet::PAYLOAD_LIMIT];
    let n = length_of(telnet_reader::read(up, at, &mut payload));
    let verdict = verdict_by(answer_to(table, octets_part::part(&payload, 0, n)));
    say_verdict(verdict);
    verdict
}
