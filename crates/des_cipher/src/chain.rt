// Cipher block chaining.
ghost use Rattle.std.specs.Prelude.{◌≡◌};
ghost use Rattle.des.specs.Cipher.{chained};
ghost use Rattle.des_cipher.specs.Internal.Boxes.{box_array};
ghost use Rattle.des.specs.Schedule.{round_keys};

use crate::boxes::boxes;
use crate::cipher::encipher_by;
use des_schedule::key_schedule;

// The last block of a chain from eight zeros under round keys.
fn chain(keys: &[[u8; 8]; 16], boxes: &[u8; 512], blocks: &[u64]) -> u64
    requires { boxes.now ≡ box_array }
    ensures { result ≡ chained keys.now 0 blocks.now }
{
    let mut last: u64 = 0;
    for block in blocks {
        last = encipher_by(keys, boxes, last ^ *block);
    }
    last
}

// The last block of a chain from eight zeros, which with no block is those zeros.
pub fn cbc_last(key: u64, blocks: &[u64]) -> u64
    ensures { result ≡ chained (round_keys key) 0 blocks.now }
{
    chain(&key_schedule(key), &boxes(), blocks)
}
