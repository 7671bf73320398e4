// Words of 32 and 64 bits as the secure hashes use them. What is right is said in `specs/`, over the width.
#![tactic(auto)]

ghost use Rattle.std.specs.Prelude.{◌≡◌, [], ◌∷◌, ◌%◌, take};
ghost use Rattle.words.specs.BigEndian.{number, bytes};
ghost use Rattle.words.specs.Word.{rotl};

// `x` rotated to the left by `n` bits; 32 are a whole turn.
pub fn rotate_left_32(x: u32, n: u32) -> u32
    ensures { result ≡ rotl 32 (n % 32) x }
{
    x.rotate_left(n)
}

// The word of four bytes, the most significant first.
pub fn word_32(a: u8, b: u8, c: u8, d: u8) -> u32
    ensures { result ≡ number (a ∷ b ∷ c ∷ d ∷ []) }
{
    u32::from_be_bytes([a, b, c, d])
}

// The four bytes of a word, the most significant first.
pub fn bytes_32(x: u32) -> [u8; 4]
    ensures { result ≡ bytes 4 x }
{
    x.to_be_bytes()
}

// The eight bytes of a number, the most significant first.
pub fn bytes_64(n: u64) -> [u8; 8]
    ensures { result ≡ bytes 8 n }
{
    n.to_be_bytes()
}

// The word of the first eight bytes, the most significant first; fewer bytes stand for a smaller number.
pub fn word_64(bytes: &[u8]) -> u64
    ensures { result ≡ number (take 8 bytes.now) }
{
    let mut n: u64 = 0;
    for b in bytes.iter().take(8) {
        n = (n << 8) | u64::from(*b);
    }
    n
}
