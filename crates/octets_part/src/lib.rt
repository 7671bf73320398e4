// A part of lent bytes, and one of them, for every place and length. What is right is said in the crate `octets`, in
// `specs/Part.antt`.
#![tactic(auto)]

ghost use Rattle.std.specs.Prelude.{◌≡◌, ◌+◌, ◌-◌, min, get_or};
ghost use Rattle.octets.specs.Part as octets;

// A number, but no more than a limit.
pub fn clipped(n: usize, limit: usize) -> usize
    ensures { result ≡ min n limit }
{
    n.min(limit)
}

// Where `n` bytes from `at` on end in a buffer that may have fewer of them.
fn part_end(length: usize, at: usize, n: usize) -> usize
    ensures { result ≡ min at length + min n (length - min at length) }
{
    let start = clipped(at, length);
    start + clipped(n, length - start)
}

// The `n` bytes from a place on, or as many as there are.
pub fn part(bytes: &[u8], at: usize, n: usize) -> &[u8]
    ensures { result.now ≡ octets.part bytes.now at n }
{
    let start = clipped(at, bytes.len());
    let end = part_end(bytes.len(), at, n);
    &bytes[start..end]
}

// The byte at a place, or 0 after the end.
pub fn byte_at(bytes: &[u8], i: usize) -> u8
    ensures { result ≡ get_or bytes.now i 0 }
{
    if i < bytes.len() {
        return bytes[i];
    }
    0
}
