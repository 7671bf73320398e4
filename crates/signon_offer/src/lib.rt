// What a client offers at sign-on, against the profile of its user. What is right is said in the crate `signon`, in
// `specs/Reason.antt`. What is offered is judged by its length first: at most one hash or cipher is computed.
#![tactic(auto)]

ghost use Rattle.std.specs.Prelude.{◌≡◌};
ghost use Rattle.profile.specs.Table.{profile_in};
ghost use Rattle.signon.specs.Attempt.{is_clear};
ghost use Rattle.signon.specs.Reason.{reason_offered};
ghost use Rattle.signon_offer.specs.Internal.Offers.{by_token, clear_reason, des_reason, sha_reason};

use password_check::{DES_LENGTH, SEED_LENGTH, SHA_LENGTH};
use signon::Reason;

// Whether a seed is empty or eight zeros.
fn is_clear(seed: &[u8]) -> bool
    ensures { result ≡ is_clear seed.now }
{
    if seed.len() == 0 {
        return true;
    }
    octets::same(seed, &[0u8; SEED_LENGTH])
}

fn by_token(gives: bool) -> Reason
    ensures { result ≡ by_token gives }
{
    if !gives {
        return Reason::TokenDiffers;
    }
    Reason::Granted
}

// A clear password.
fn clear_reason(table: &[u8], at: usize, name: &[u8], offered: &[u8]) -> Reason
    ensures { result ≡ clear_reason (profile_in table.now at) name.now offered.now }
{
    if !password_sha::is_password(offered) {
        return Reason::ClearPasswordMalformed;
    }
    let token = profile_tokens::sha_token(table, at);
    by_token(password_check::gives_clear(token, name, offered))
}

// A substitute of eight bytes.
fn des_reason(
    table: &[u8],
    at: usize,
    name: &[u8],
    server_seed: &[u8],
    client_seed: &[u8],
    offered: &[u8],
) -> Reason
    ensures { result ≡ des_reason (profile_in table.now at) name.now server_seed.now client_seed.now offered.now }
{
    if !profile_tokens::des_allowed(table, at) {
        return Reason::DesNotAllowed;
    }
    let token = profile_tokens::des_token(table, at);
    by_token(password_check::gives_des(token, name, server_seed, client_seed, offered))
}

// A substitute of twenty bytes.
fn sha_reason(
    table: &[u8],
    at: usize,
    name: &[u8],
    server_seed: &[u8],
    client_seed: &[u8],
    offered: &[u8],
) -> Reason
    ensures { result ≡ sha_reason (profile_in table.now at) name.now server_seed.now client_seed.now offered.now }
{
    let token = profile_tokens::sha_token(table, at);
    by_token(password_check::gives_sha(token, name, server_seed, client_seed, offered))
}

// The reason that what is offered gives for the profile at a place of a table, under two seeds. At a place where there
// is no record, the bytes there are read as if they were one.
pub fn offer_reason(
    table: &[u8],
    at: usize,
    name: &[u8],
    server_seed: &[u8],
    client_seed: &[u8],
    offered: &[u8],
) -> Reason
    ensures { result ≡ reason_offered (profile_in table.now at) name.now server_seed.now client_seed.now offered.now }
{
    if is_clear(client_seed) {
        return clear_reason(table, at, name, offered);
    }
    if client_seed.len() != SEED_LENGTH {
        return Reason::SeedLength;
    }
    if offered.len() == DES_LENGTH {
        return des_reason(table, at, name, server_seed, client_seed, offered);
    }
    if offered.len() == SHA_LENGTH {
        return sha_reason(table, at, name, server_seed, client_seed, offered);
    }
    Reason::SubstituteLength
}
