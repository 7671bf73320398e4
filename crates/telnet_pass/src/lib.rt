// Bytes of a fragment gone through from a reader's stage on, up to their end, an event or a fault. What is right is said
// in `specs/Run.antt`.
#![tactic(auto)]

ghost use Rattle.std.specs.Prelude.{◌≡◌, ◌≤◌, length, take};
ghost use Rattle.telnet_pass.specs.Run.{ran, Ran};

use telnet::{Kind, PAYLOAD_LIMIT};
use telnet_fragments::Stage;
use telnet_stage::Act;

// What bytes came to: the stage and the payload bytes that are kept, how many bytes were taken, how many bytes of data
// are at the front of the buffer, and the event, if any.
#[derive(Clone, Copy)]
pub struct Run {
    pub stage: Stage,
    pub count: usize,
    pub taken: usize,
    pub length: usize,
    pub kind: Option<Kind>,
}

fn run_of(stage: Stage, count: usize, taken: usize, length: usize, kind: Option<Kind>) -> Run
    ensures { result ≡ ran stage count taken length kind }
{
    Run {
        stage,
        count,
        taken,
        length,
        kind,
    }
}

// Goes through bytes up to their end, an event or a fault. After a byte of data, or of a payload, the stretch that
// follows is found and copied at once.
fn go_through(stage: Stage, count: usize, kept: &mut [u8], s: &[u8], out: &mut [u8]) -> Run
    requires { (length s.now ≤ length out.old) × (length kept.old ≡ 1024) }
    ensures { Ran stage count kept.old s.now out.old result kept.new out.new }
{
    let mut at = stage;
    let mut n = count;
    let mut i = 0;
    let mut d = 0;
    while i < s.len() {
        let b = s[i];
        let t = telnet_stage::take_byte(at, n, b);
        let act = t.act;
        at = t.stage;
        i += 1;
        match act {
            Act::Waits => {
                n = t.count;
                continue;
            }
            Act::Gives => {
                out[d] = b;
                d += 1;
                if s.len() <= i {
                    return run_of(at, n, i, d, None);
                }
                let run = telnet_data::copy_run(s, i, out, d);
                d += run.count;
                i = run.end;
                continue;
            }
            Act::Keeps => {
                kept[n] = b;
                n += 1;
                let run = telnet_data::copy_run(s, i, kept, n);
                n += run.count;
                i = run.end;
                continue;
            }
            Act::Stops(kind) => return run_of(at, n, i, d, kind),
        }
    }
    run_of(at, n, i, d, None)
}

// The same of bytes of any number: as many are gone through as there is room for.
pub fn pass(
    stage: Stage,
    count: usize,
    kept: &mut [u8; PAYLOAD_LIMIT],
    s: &[u8],
    out: &mut [u8],
) -> Run
    ensures { Ran stage count kept.old (take (length out.old) s.now) out.old result kept.new out.new }
{
    let end = s.len().min(out.len());
    go_through(stage, count, kept, &s[0..end], out)
}
