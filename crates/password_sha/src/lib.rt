// Password tokens and substitutes by SHA-1 (RFC 4777, section 5.2). What is right is said in `specs/`: `Sha.antt` has
// the section's steps, `Answer.antt` the refusals.
#![tactic(auto)]

ghost use Rattle.std.specs.Prelude.{true, ◌≡◌, ◌+◌, ◌*◌, ◌≤◌, length};
ghost use Rattle.octets.specs.Lent.{overwrite};
ghost use Rattle.words.specs.BigEndian.{bytes};
ghost use Rattle.names.specs.Name.{raised, is_name, profile_limit};
ghost use Rattle.names.specs.Padding.{filled};
ghost use Rattle.names.specs.Range.{every};
ghost use Rattle.password_sha.specs.Sha.{unicode, is_printable, is_password, PW-token, substitute_text};
ghost use Rattle.password_sha.specs.Answer.{sha_token, sha_substitute};

use refusal::Refusal;

// Whether a byte is one of 20X to 7EX.
fn is_printable(b: u8) -> bool
    ensures { result ≡ is_printable b }
{
    matches!(b, 0x20..=0x7E)
}

// Whether each byte of a text is.
fn are_printable(text: &[u8]) -> bool
    ensures { result ≡ every is_printable text.now }
{
    text.iter().all(|b| is_printable(*b))
}

// The most bytes of a password.
pub const PASSWORD_LIMIT: usize = 128;

// Whether a text is a password: 1 to 128 bytes of 20X to 7EX.
pub fn is_password(text: &[u8]) -> bool
    ensures { result ≡ is_password text.now }
{
    if text.len() == 0 {
        return false;
    }
    if PASSWORD_LIMIT < text.len() {
        return false;
    }
    are_printable(text)
}

// A profile name raised, padded with blanks.
fn user_id(name: &[u8]) -> [u8; 10]
    requires { is_name profile_limit name.now ≡ true }
    ensures { result ≡ filled 0x20 10 (raised name.now) }
{
    let held = names::profile_name(name);
    let bytes = held.bytes;
    let length = held.length;
    let mut id = [0x20u8; 10];
    octets::put(&bytes[0..length], &mut id, 0);
    id
}

// Puts a text at a place, two bytes to a character.
fn put_unicode(text: &[u8], out: &mut [u8], at: usize)
    requires { at + 2 * length text.now ≤ length out.old }
    ensures { out.new ≡ overwrite out.old at (unicode text.now) }
{
    for i in 0..text.len() {
        out[at + 2 * i] = 0;
        out[at + 2 * i + 1] = text[i];
    }
}

// The hash of a name and a password.
fn token_of(name: &[u8], password: &[u8]) -> [u8; 20]
    requires { (is_name profile_limit name.now ≡ true) × (length password.now ≤ 128) }
    ensures { result ≡ PW-token name.now password.now }
{
    let id = user_id(name);
    let mut message = [0u8; 276];
    put_unicode(&id, &mut message, 0);
    put_unicode(password, &mut message, 20);
    let end = 20 + 2 * password.len();
    sha1_digest::digest(&message[0..end])
}

// The token of a name and a password, or 33 for a bad name, or 34 for a bad password.
pub fn sha_token(name: &[u8], password: &[u8]) -> Result<[u8; 20], Refusal>
    ensures { result ≡ sha_token name.now password.now }
{
    if !names::is_name(name, names::PROFILE_LIMIT) {
        return Err(Refusal::BadProfileName);
    }
    if !is_password(password) {
        return Err(Refusal::BadPassword);
    }
    Ok(token_of(name, password))
}

// What a substitute is the hash of: token, seeds, name and sequence number.
fn substituted(token: [u8; 20], name: &[u8], server_seed: u64, client_seed: u64) -> [u8; 64]
    requires { is_name profile_limit name.now ≡ true }
    ensures { result ≡ substitute_text token (bytes 8 server_seed) (bytes 8 client_seed) name.now }
{
    let id = user_id(name);
    let mut message = [0u8; 64];
    octets::put(&token, &mut message, 0);
    octets::put(&words::bytes_64(server_seed), &mut message, 20);
    octets::put(&words::bytes_64(client_seed), &mut message, 28);
    put_unicode(&id, &mut message, 36);
    octets::put(&words::bytes_64(1), &mut message, 56);
    message
}

// The substitute that a client sends for a token, or 33 for a bad name.
pub fn sha_substitute(
    token: [u8; 20],
    name: &[u8],
    server_seed: u64,
    client_seed: u64,
) -> Result<[u8; 20], Refusal>
    ensures { result ≡ sha_substitute token name.now server_seed client_seed }
{
    if !names::is_name(name, names::PROFILE_LIMIT) {
        return Err(Refusal::BadProfileName);
    }
    Ok(sha1_digest::digest(&substituted(token, name, server_seed, client_seed)))
}
