// The calls of `export_password`, for a caller in C: each is the function of that name there, with its promise.
ghost use Rattle.std.specs.Prelude.{◌≡◌};
ghost use Rattle.export_password.specs.Numbers.{block_numbers, hash_into, substitute_into};
ghost use Rattle.password_des.specs.Answer.{des_token, des_substitute};
ghost use Rattle.password_sha.specs.Answer.{sha_token};
ghost use Rattle.octets.specs.Lent.{outcome};

use export::TvWritten;
use export_password::TvBlock;

// The DES token of a name and a password. Refused by 33 and 34.
#[unsafe(no_mangle)]
pub extern "C" fn tv_des_token(name: &[u8], password: &[u8]) -> TvBlock
    ensures { result ≡ block_numbers (des_token name.now password.now) }
{
    export_password::tv_des_token(name, password)
}

// The SHA-1 token of a name and a password, at the front of `out`. Refused by 33, 34 and 4.
#[unsafe(no_mangle)]
pub extern "C" fn tv_sha_token(name: &[u8], password: &[u8], out: &mut [u8]) -> TvWritten
    ensures { outcome result out.new ≡ hash_into (sha_token name.now password.now) out.old }
{
    export_password::tv_sha_token(name, password, out)
}

// The substitute that a client sends for a DES token. Refused by 33.
#[unsafe(no_mangle)]
pub extern "C" fn tv_des_substitute(
    token: u64,
    name: &[u8],
    server_seed: u64,
    client_seed: u64,
) -> TvBlock
    ensures { result ≡ block_numbers (des_substitute token name.now server_seed client_seed) }
{
    export_password::tv_des_substitute(token, name, server_seed, client_seed)
}

// The substitute that a client sends for a SHA-1 token, at the front of `out`. Refused by 31 where the token has not
// twenty bytes, and by 33 and 4.
#[unsafe(no_mangle)]
pub extern "C" fn tv_sha_substitute(
    token: &[u8],
    name: &[u8],
    server_seed: u64,
    client_seed: u64,
    out: &mut [u8],
) -> TvWritten
    ensures { outcome result out.new
        ≡ substitute_into token.now name.now server_seed client_seed out.old }
{
    export_password::tv_sha_substitute(token, name, server_seed, client_seed, out)
}
