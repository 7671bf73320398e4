// The token maker: one record of a profile table from a name, a password and two marks. What is right is said in
// `specs/`: `Made.antt` has the profile, `Promise.antt` the refusals.
#![tactic(auto)]

ghost use Rattle.std.specs.Prelude.{true, ◌≡◌, [], ◌∷◌, ◌+◌, ◌≤◌, length};
ghost use Rattle.octets.specs.Lent.{outcome, overwrite};
ghost use Rattle.names.specs.Name.{raised, is_name, profile_limit};
ghost use Rattle.profile.specs.Profile.{flags_byte};
ghost use Rattle.profile_maker.specs.Made.{making};
ghost use Rattle.profile_maker.specs.Promise.{make_into};
ghost use Rattle.profile_maker.specs.Internal.Parts.{SaysDes, laid_out};

use refusal::Refusal;

// What a record says of DES: its mark and its token.
#[derive(Clone, Copy)]
struct DesPart {
    allowed: bool,
    token: [u8; 8],
}

// The flags of two marks.
#[tactic(auto, unfolding(profile::specs::Profile::flags_byte))]
fn flags(enabled: bool, des_allowed: bool) -> u8
    ensures { result ≡ flags_byte (enabled ∷ des_allowed ∷ []) }
{
    enabled as u8 + 2 * (des_allowed as u8)
}

// The token by DES with the mark as asked; zeros and no mark, where the password has no token.
fn des_part(name: &[u8], password: &[u8], des_allowed: bool) -> DesPart
    requires { is_name profile_limit name.now ≡ true }
    ensures { SaysDes name.now password.now des_allowed result.allowed result.token }
{
    match password_des::des_token(name, password) {
        Ok(token) => DesPart {
            allowed: des_allowed,
            token: words::bytes_64(token),
        },
        Err(_) => DesPart {
            allowed: false,
            token: [0u8; 8],
        },
    }
}

// Puts a record to the front of the buffer: length, flags, n, the name raised, the two tokens.
fn put_record(name: &[u8], flags: u8, des: [u8; 8], sha: [u8; 20], out: &mut [u8])
    requires { (is_name profile_limit name.now ≡ true) × (32 + length name.now ≤ length out.old) }
    ensures { out.new ≡ overwrite out.old 0 (laid_out flags (raised name.now) des sha) }
{
    let held = names::profile_name(name);
    let bytes = held.bytes;
    let n = held.length;
    let header = [0, (30 + n) as u8, flags, n as u8];
    octets::put(&header, out, 0);
    octets::put(&bytes[0..n], out, 4);
    octets::put(&des, out, 4 + n);
    octets::put(&sha, out, 12 + n);
}

// Writes the record of a name and a password to the front of `out`: 32 bytes and the name's. 33 for a bad name, 34 for
// a bad password, 4 where `out` is too short; a refusal leaves `out` as it was. The password is one of SHA-1's; where
// DES cannot have it, the record has no DES token and does not allow DES.
pub fn make_record(
    name: &[u8],
    password: &[u8],
    enabled: bool,
    des_allowed: bool,
    out: &mut [u8],
) -> Result<usize, Refusal>
    ensures { outcome result out.new ≡
        make_into (making name.now password.now enabled des_allowed) out.old }
{
    let sha = password_sha::sha_token(name, password)?;
    let length = 32 + name.len();
    if out.len() < length {
        return Err(Refusal::NoRoom);
    }
    let des = des_part(name, password, des_allowed);
    put_record(name, flags(enabled, des.allowed), des.token, sha, out);
    Ok(length)
}
