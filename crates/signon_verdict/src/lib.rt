// The sign-on verdict: of this session's server seed, the profile table and the payload of NEW-ENVIRON that the client
// sent. What is right is said in the crate `signon`. It is the verdict of the reason that `signon_reason::explain` gives.
#![tactic(auto)]

ghost use Rattle.std.specs.Prelude.{◌≡◌};
ghost use Rattle.signon.specs.Verdict.{answer_of};
ghost use Rattle.signon.specs.Reason.{verdict_for};

use refusal::Refusal;
use signon::{Reason, Verdict};

// The one verdict that a reason belongs to.
pub fn verdict_for(reason: Reason) -> Verdict
    ensures { result ≡ verdict_for reason }
{
    match reason {
        Reason::PanelAskedFor => Verdict::Panel,
        Reason::NoUser => Verdict::NotKnown,
        Reason::BadName => Verdict::NotKnown,
        Reason::NotInTheTable => Verdict::NotKnown,
        Reason::Disabled => Verdict::Disabled,
        Reason::SeedVariableMissing => Verdict::Failed,
        Reason::SubstituteMissing => Verdict::Failed,
        Reason::SeedLength => Verdict::Failed,
        Reason::SubstituteLength => Verdict::Failed,
        Reason::DesNotAllowed => Verdict::Failed,
        Reason::ClearPasswordMalformed => Verdict::Failed,
        Reason::TokenDiffers => Verdict::Failed,
        Reason::Granted => Verdict::Grant,
    }
}

// The verdict, or a refusal: 35; 30, 31, 32; 3; 20 to 25.
pub fn verdict(server_seed: &[u8], table: &[u8], payload: &[u8]) -> Result<Verdict, Refusal>
    ensures { result ≡ answer_of server_seed.now table.now payload.now }
{
    let reason = signon_reason::explain(server_seed, table, payload)?;
    Ok(verdict_for(reason))
}
