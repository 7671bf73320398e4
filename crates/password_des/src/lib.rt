// Password tokens and substitutes by DES (RFC 4777, section 5.1). A block of eight bytes is a number, its first byte
// the highest. What is right is said in `specs/`: `Des.antt` has the section's steps, `Answer.antt` the refusals.
#![tactic(auto)]

ghost use Rattle.std.specs.Prelude.{◌≡◌, ◌*◌, ◌<◌, ◌≤◌, length, take};
ghost use Rattle.names.specs.Ebcdic.{blank, ebcdic_of};
ghost use Rattle.names.specs.Padding.{filled};
ghost use Rattle.password_des.specs.Des.{pair, folded_byte, folded, user_id, SHIFT-RESULT, PW-TOKEN, RDrSEQ, PW-SUB};
ghost use Rattle.password_des.specs.Answer.{des_token, des_substitute};
ghost use Rattle.des.specs.Cipher.{enciphered};

use refusal::Refusal;

// The most bytes of a password that has a token by DES.
pub const PASSWORD_LIMIT: usize = 10;

// A text in EBCDIC, padded with blanks.
fn padded(text: &[u8]) -> [u8; 16]
    requires { length text.now ≤ 16 }
    ensures { result ≡ filled blank 16 (ebcdic_of text.now) }
{
    let mut bytes = [0u8; 16];
    names_ebcdic::put_ebcdic(text, 16, &mut bytes, 0);
    bytes
}

// A pair of bits of a byte, counted from the left.
fn pair_of(b: u8, j: usize) -> u8
    requires { j < 4 }
    ensures { result ≡ pair b j }
{
    (b >> (6 - 2 * j)) & 3
}

// Byte `i`, from 1 on, of a folded identifier.
fn folded_byte(id: [u8; 16], i: usize) -> u8
    requires { (1 ≤ i) × (i ≤ 8) }
    ensures { result ≡ folded_byte (take 10 id) i }
{
    id[i - 1] ^ (pair_of(id[8 + (i - 1) / 4], (i - 1) % 4) << 6)
}

// Bytes 9 and 10 folded into bytes 1 to 8.
fn fold(id: [u8; 16]) -> [u8; 8]
    ensures { result ≡ folded (take 10 id) }
{
    [
        folded_byte(id, 1),
        folded_byte(id, 2),
        folded_byte(id, 3),
        folded_byte(id, 4),
        folded_byte(id, 5),
        folded_byte(id, 6),
        folded_byte(id, 7),
        folded_byte(id, 8),
    ]
}

// The block of a name, folded where it is longer than eight bytes.
fn user_id(name: &[u8]) -> u64
    requires { length name.now ≤ 10 }
    ensures { result ≡ user_id (ebcdic_of name.now) }
{
    let id = padded(name);
    if name.len() <= 8 {
        return words::word_64(&id);
    }
    words::word_64(&fold(id))
}

// A block enciphered under the key of a password of at most eight bytes.
fn token_of(password: &[u8], id: u64) -> u64
    requires { length password.now ≤ 8 }
    ensures { result ≡ enciphered (SHIFT-RESULT (ebcdic_of password.now)) id }
{
    des_cipher::encipher(
        des_schedule::prepare_key(words::word_64(&padded(password))),
        id,
    )
}

// The token of a password and a name; characters 9 and 10 of a password have a token of their own.
fn pw_token(password: &[u8], name: &[u8]) -> u64
    requires { (length password.now ≤ 10) × (length name.now ≤ 10) }
    ensures { result ≡ PW-TOKEN (ebcdic_of password.now) (ebcdic_of name.now) }
{
    let id = user_id(name);
    if password.len() <= 8 {
        return token_of(password, id);
    }
    token_of(&password[0..8], id) ^ token_of(&password[8..], id)
}

// The token of a name and a password, or 33 for a bad name, or 34 for a password that DES cannot have.
pub fn des_token(name: &[u8], password: &[u8]) -> Result<u64, Refusal>
    ensures { result ≡ des_token name.now password.now }
{
    if !names::is_name(name, names::PROFILE_LIMIT) {
        return Err(Refusal::BadProfileName);
    }
    if !names::is_name(password, PASSWORD_LIMIT) {
        return Err(Refusal::BadPassword);
    }
    Ok(pw_token(password, name))
}

// The server seed plus the sequence number, which is always 1.
pub fn rdr_seq(server_seed: u64) -> u64
    ensures { result ≡ RDrSEQ server_seed }
{
    std::num::wrapping_add_u64(server_seed, 1)
}

// The last block of the chain over seeds, name and sequence number; the name is not folded.
fn pw_sub(token: u64, name: &[u8], server_seed: u64, client_seed: u64) -> u64
    requires { length name.now ≤ 10 }
    ensures { result ≡ PW-SUB token server_seed client_seed (ebcdic_of name.now) }
{
    let id = padded(name);
    let seq = rdr_seq(server_seed);
    let data: [u64; 5] = [
        seq,
        client_seed,
        words::word_64(&id) ^ seq,
        words::word_64(&id[8..]) ^ seq,
        1,
    ];
    des_cipher::cbc_last(token, &data)
}

// The substitute that a client sends for a token, or 33 for a bad name.
pub fn des_substitute(
    token: u64,
    name: &[u8],
    server_seed: u64,
    client_seed: u64,
) -> Result<u64, Refusal>
    ensures { result ≡ des_substitute token name.now server_seed client_seed }
{
    if !names::is_name(name, names::PROFILE_LIMIT) {
        return Err(Refusal::BadProfileName);
    }
    Ok(pw_sub(token, name, server_seed, client_seed))
}
