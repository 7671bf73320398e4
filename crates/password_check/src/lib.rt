// Whether what a client offers is what a stored token gives. No token is handed out, and a refusal gives nothing. What
// is right is said in `specs/Gives.antt`.
#![tactic(auto)]

ghost use Rattle.std.specs.Prelude.{◌≡◌};
ghost use Rattle.password_check.specs.Gives.{gives_clear, are_seeds, gives_des, gives_sha};

// How long tokens and substitutes by DES and by SHA-1 are, and a seed.
pub const DES_LENGTH: usize = 8;

pub const SHA_LENGTH: usize = 20;

pub const SEED_LENGTH: usize = 8;

// Whether a text is a password whose SHA-1 token, with a name, is the stored one.
pub fn gives_clear(token: &[u8], name: &[u8], offered: &[u8]) -> bool
    ensures { result ≡ gives_clear token.now name.now offered.now }
{
    match password_sha::sha_token(name, offered) {
        Ok(given) => octets::same(&given, token),
        Err(_) => false,
    }
}

// Whether two texts have the length of a seed.
fn are_seeds(server_seed: &[u8], client_seed: &[u8]) -> bool
    ensures { result ≡ are_seeds server_seed.now client_seed.now }
{
    if server_seed.len() != SEED_LENGTH {
        return false;
    }
    client_seed.len() == SEED_LENGTH
}

// Whether the offered bytes are the substitute by DES of the stored token, under two seeds.
pub fn gives_des(
    token: &[u8],
    name: &[u8],
    server_seed: &[u8],
    client_seed: &[u8],
    offered: &[u8],
) -> bool
    ensures { result ≡ gives_des token.now name.now server_seed.now client_seed.now offered.now }
{
    if token.len() != DES_LENGTH {
        return false;
    }
    if !are_seeds(server_seed, client_seed) {
        return false;
    }
    let block = words::word_64(token);
    let server = words::word_64(server_seed);
    let client = words::word_64(client_seed);
    let Ok(substitute) = password_des::des_substitute(block, name, server, client) else {
        return false;
    };
    octets::same(&words::bytes_64(substitute), offered)
}

// Whether the offered bytes are the substitute by SHA-1 of the stored token, under two seeds.
pub fn gives_sha(
    token: &[u8],
    name: &[u8],
    server_seed: &[u8],
    client_seed: &[u8],
    offered: &[u8],
) -> bool
    ensures { result ≡ gives_sha token.now name.now server_seed.now client_seed.now offered.now }
{
    let Ok(bytes) = <[u8; SHA_LENGTH]>::try_from(token) else {
        return false;
    };
    if !are_seeds(server_seed, client_seed) {
        return false;
    }
    let server = words::word_64(server_seed);
    let client = words::word_64(client_seed);
    let Ok(substitute) = password_sha::sha_substitute(bytes, name, server, client) else {
        return false;
    };
    octets::same(&substitute, offered)
}
