// Tokens and substitutes, for a caller in C. Each function answers with numbers: which number stands for what is said
// at the structs and in `specs/Numbers.antt`. A `refusal` is 0 where there is none; else it is the refusal's number,
// and every other field is 0. A slice is a pointer and a length. Seeds, and tokens and substitutes of DES, are numbers
// of eight bytes, the first byte highest; those of SHA-1 are twenty bytes.
#![tactic(auto)]

ghost use Rattle.std.specs.Prelude.{◌≡◌};
ghost use Rattle.export_password.specs.Numbers.{block_numbers, hash_into, substitute_into};
ghost use Rattle.password_des.specs.Answer.{des_token, des_substitute};
ghost use Rattle.password_sha.specs.Answer.{sha_token};
ghost use Rattle.octets.specs.Lent.{outcome};
ghost use Rattle.export.specs.Numbers.{written_numbers};

use export::TvWritten;
use refusal::Refusal;

// A token or a substitute of DES.
#[repr(C)]
#[derive(Clone, Copy)]
pub struct TvBlock {
    pub refusal: u8,
    pub value: u64,
}

fn block_numbers(answer: Result<u64, Refusal>) -> TvBlock
    ensures { result ≡ block_numbers answer }
{
    match answer {
        Ok(value) => TvBlock { refusal: 0, value },
        Err(e) => TvBlock {
            refusal: e.number(),
            value: 0,
        },
    }
}

// Puts a token or a substitute of SHA-1 to the front of the buffer, unless it is refused.
fn put_hash(answer: Result<[u8; 20], Refusal>, out: &mut [u8]) -> Result<usize, Refusal>
    ensures { outcome (written_numbers result) out.new ≡ hash_into answer out.old }
{
    let bytes = answer?;
    if octets::put(&bytes, out, 0) {
        return Ok(20);
    }
    Err(Refusal::NoRoom)
}

// The DES token of a name and a password. Refused by 33 and 34.
pub fn tv_des_token(name: &[u8], password: &[u8]) -> TvBlock
    ensures { result ≡ block_numbers (des_token name.now password.now) }
{
    block_numbers(password_des::des_token(name, password))
}

// The SHA-1 token of a name and a password, at the front of `out`. Refused by 33, 34 and 4.
pub fn tv_sha_token(name: &[u8], password: &[u8], out: &mut [u8]) -> TvWritten
    ensures { outcome result out.new ≡ hash_into (sha_token name.now password.now) out.old }
{
    export::written_numbers(put_hash(password_sha::sha_token(name, password), out))
}

// The substitute that a client sends for a DES token. Refused by 33.
pub fn tv_des_substitute(token: u64, name: &[u8], server_seed: u64, client_seed: u64) -> TvBlock
    ensures { result ≡ block_numbers (des_substitute token name.now server_seed client_seed) }
{
    block_numbers(password_des::des_substitute(token, name, server_seed, client_seed))
}

// The substitute that a client sends for a SHA-1 token, at the front of `out`. Refused by 31 where the token has not
// twenty bytes, and by 33 and 4.
pub fn tv_sha_substitute(
    token: &[u8],
    name: &[u8],
    server_seed: u64,
    client_seed: u64,
    out: &mut [u8],
) -> TvWritten
    ensures { outcome result out.new
        ≡ substitute_into token.now name.now server_seed client_seed out.old }
{
    let Ok(token) = <[u8; 20]>::try_from(token) else {
        return export::written_numbers(Err(Refusal::BadProfile));
    };
    let substitute = password_sha::sha_substitute(token, name, server_seed, client_seed);
    export::written_numbers(put_hash(substitute, out))
}
