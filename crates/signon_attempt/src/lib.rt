// A sign-on as a payload's variables tell it, and the reason in two parts: what needs no profile, and what a profile
// gives once it is found. What is right is said in `specs/Parts.antt` and in the crate `signon`.
#![tactic(auto)]

ghost use Rattle.std.specs.Prelude.{◌≡◌, option_copied};
ghost use Rattle.env.specs.Variable.{lookup};
ghost use Rattle.env.specs.Numbers.{variables_held};
ghost use Rattle.profile.specs.Table.{profile_in};
ghost use Rattle.signon_attempt.specs.Parts.{user_of, early_of, reason_found};
ghost use Rattle.signon_attempt.specs.Internal.Told.{found, is_panel};

use env::{USERVAR_KIND, VAR_KIND};
use signon::Reason;

// The value of a variable of a kind and name, where it is there.
fn told<'a>(bytes: &'a [u8], numbers: &[usize], kind: usize, name: &[u8]) -> Option<&'a [u8]>
    ensures { found (option_copied result) ≡ lookup kind name.now (variables_held bytes.now numbers.now) }
{
    let place = env_search::find(bytes, numbers, kind, name)?;
    Some(octets_part::part(bytes, place.at, place.length))
}

// The value of VAR USER, or nothing.
pub fn user_of<'a>(bytes: &'a [u8], numbers: &[usize]) -> &'a [u8]
    ensures { result.now ≡ user_of (variables_held bytes.now numbers.now) }
{
    env_search::value_of(bytes, numbers, VAR_KIND, b"USER")
}

// Whether neither USERVAR is there.
fn is_panel(bytes: &[u8], numbers: &[usize]) -> bool
    ensures { result ≡ is_panel (variables_held bytes.now numbers.now) }
{
    told(bytes, numbers, USERVAR_KIND, b"IBMRSEED").is_none()
        && told(bytes, numbers, USERVAR_KIND, b"IBMSUBSPW").is_none()
}

// What needs no profile: panel asked for, no USER, bad name. Where it is none of these, the profile is to be looked up.
pub fn without_profile(bytes: &[u8], numbers: &[usize]) -> Option<Reason>
    ensures { result ≡ early_of (variables_held bytes.now numbers.now) }
{
    if is_panel(bytes, numbers) {
        return Some(Reason::PanelAskedFor);
    }
    let Some(user) = told(bytes, numbers, VAR_KIND, b"USER") else {
        return Some(Reason::NoUser);
    };
    if !names::is_name(user, names::PROFILE_LIMIT) {
        return Some(Reason::BadName);
    }
    None
}

// What the profile at a place of a table gives, from "disabled" on. At a place where there is no record, the bytes
// there are read as if they were one.
pub fn with_profile(
    server_seed: &[u8],
    table: &[u8],
    at: usize,
    bytes: &[u8],
    numbers: &[usize],
) -> Reason
    ensures { result ≡ reason_found server_seed.now (variables_held bytes.now numbers.now) (profile_in table.now at) }
{
    if !profile_tokens::enabled(table, at) {
        return Reason::Disabled;
    }
    let Some(client_seed) = told(bytes, numbers, USERVAR_KIND, b"IBMRSEED") else {
        return Reason::SeedVariableMissing;
    };
    let Some(offered) = told(bytes, numbers, USERVAR_KIND, b"IBMSUBSPW") else {
        return Reason::SubstituteMissing;
    };
    let name = user_of(bytes, numbers);
    signon_offer::offer_reason(table, at, name, server_seed, client_seed, offered)
}
