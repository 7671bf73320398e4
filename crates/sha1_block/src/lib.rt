// The hash value of SHA-1 and its change by blocks, section 6.1.2 of FIPS 180-4.
#![tactic(auto)]

ghost use Rattle.std.specs.Prelude.{◌≡◌, ◌+◌, ◌*◌, ◌<◌, ◌≤◌, [], ◌∷◌, ◌++◌, length, take, drop};
ghost use Rattle.words.specs.BigEndian.{number};
ghost use Rattle.words.specs.Blocks.{cut};
ghost use Rattle.sha1_hash.specs.Sha1.{◌⊞◌, f, K, next, schedule, round, rounds, compressed, hashed};
ghost use Rattle.sha1_block.specs.Held.{five};
ghost use Rattle.sha1_block.specs.Internal.Between.{planned, Carried};

// The five words of a hash value, or the working variables.
#[derive(Clone, Copy)]
pub struct Words {
    pub a: u32,
    pub b: u32,
    pub c: u32,
    pub d: u32,
    pub e: u32,
}

// The function of the twenty rounds of a stage.
fn mix(stage: usize, x: u32, y: u32, z: u32) -> u32
    ensures { result ≡ f (20 * stage) x y z }
{
    if stage < 1 {
        return (x & y) ^ (!x & z);
    }
    if stage < 2 {
        return x ^ y ^ z;
    }
    if stage < 3 {
        return (x & y) ^ (x & z) ^ (y & z);
    }
    x ^ y ^ z
}

// The constant of the twenty rounds of a stage.
fn constant(stage: usize) -> u32
    ensures { result ≡ K (20 * stage) }
{
    if stage < 1 {
        return 0x5a827999;
    }
    if stage < 2 {
        return 0x6ed9eba1;
    }
    if stage < 3 {
        return 0x8f1bbcdc;
    }
    0xca62c1d6
}

// The sum of two words modulo 2^32.
fn sum(x: u32, y: u32) -> u32
    ensures { result ≡ x ⊞ y }
{
    x.wrapping_add(y)
}

// A round of a stage with its word.
fn step(s: Words, stage: usize, w: u32) -> Words
    ensures { five result ≡ round (20 * stage) w (five s) }
{
    let mixed = sum(words::rotate_left_32(s.a, 5), mix(stage, s.b, s.c, s.d));
    Words {
        a: sum(sum(sum(mixed, s.e), constant(stage)), w),
        b: s.a,
        c: words::rotate_left_32(s.b, 30),
        d: s.c,
        e: s.d,
    }
}

// A word of a block.
fn taken(block: &[u8; 64], t: usize) -> u32
    requires { t < 16 }
    ensures { result ≡ number (take 4 (drop (4 * t) block.now)) }
{
    let at = 4 * t;
    words::word_32(block[at], block[at + 1], block[at + 2], block[at + 3])
}

// The word that is made of those before it.
fn made(w: &[u32; 80], t: usize) -> u32
    requires { (16 ≤ t) × (t < 80) }
    ensures { result ≡ next (take t w.now) }
{
    words::rotate_left_32(w[t - 3] ^ w[t - 8] ^ w[t - 14] ^ w[t - 16], 1)
}

// The word of a round: the block's, or made.
fn word(block: &[u8; 64], w: &[u32; 80], t: usize) -> u32
    requires { t < 80 }
    ensures { planned block.now (t + 1) (take t w.now ++ result ∷ []) ≡ planned block.now t (take t w.now) }
{
    if t < 16 {
        return taken(block, t);
    }
    made(w, t)
}

// The twenty rounds of a stage.
fn twenty(s: Words, block: &[u8; 64], w: &mut [u32; 80], stage: usize) -> Words
    requires { stage < 4 }
    ensures { Carried block.now (20 * stage) w.old (five s) (20 * stage + 20) w.new (five result) }
{
    let mut s = s;
    let first = 20 * stage;
    for t in first..first + 20 {
        let x = word(block, w, t);
        w[t] = x;
        s = step(s, stage, x);
    }
    s
}

// The eighty rounds over a block.
fn eighty(h: Words, block: &[u8; 64]) -> Words
    ensures { five result ≡ rounds 0 (schedule block.now) (five h) }
{
    let mut w = [0u32; 80];
    let first = twenty(h, block, &mut w, 0);
    let second = twenty(first, block, &mut w, 1);
    let third = twenty(second, block, &mut w, 2);
    twenty(third, block, &mut w, 3)
}

// The hash value after a block.
fn compress(h: Words, block: &[u8; 64]) -> Words
    ensures { five result ≡ compressed (five h) block.now }
{
    let s = eighty(h, block);
    Words {
        a: sum(s.a, h.a),
        b: sum(s.b, h.b),
        c: sum(s.c, h.c),
        d: sum(s.d, h.d),
        e: sum(s.e, h.e),
    }
}

// The hash value after each whole block of `blocks`.
#[tactic(auto, using(crate::proofs::Chunks::chunks_cut, crate::proofs::Chunks::chunks_whole))]
pub fn absorb(h: Words, blocks: &[u8]) -> Words
    ensures { five result ≡ hashed (five h) (cut 64 blocks.now) }
{
    let mut h = h;
    for block in blocks.as_chunks::<64>().0 {
        h = compress(h, block);
    }
    h
}
