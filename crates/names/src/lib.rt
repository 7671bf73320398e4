// Profile, device and system names, by value, and the EBCDIC of a byte. What is right of names, their
// EBCDIC and their order is said in `specs/`; a text is put in EBCDIC by the crate `names_ebcdic`, and names are
// compared by `names_order`.
#![tactic(auto)]

ghost use Rattle.std.specs.Prelude.{◌≡◌, ◌≤◌, length};
ghost use Rattle.names.specs.Range.{every};
ghost use Rattle.names.specs.Padding.{filled};
ghost use Rattle.names.specs.Name.{raised_byte, raised, is_name_byte, is_name, named, profile_limit, device_limit, system_limit};
ghost use Rattle.names.specs.Ebcdic.{ebcdic};

// The raised bytes of a name with zeros after them, and how many they are: 0, where a text is no name.
#[derive(Clone, Copy)]
pub struct Name {
    pub bytes: [u8; PROFILE_LIMIT],
    pub length: usize,
}

// The most bytes of the names of a profile, a device and a system.
pub const PROFILE_LIMIT: usize = 10;

pub const DEVICE_LIMIT: usize = 10;

pub const SYSTEM_LIMIT: usize = 8;

// EBCDIC's substitute for what it does not have.
const SUBSTITUTE: u8 = 0x3F;

// A lower case letter raised, any other byte as it is.
pub fn raise(b: u8) -> u8
    ensures { result ≡ raised_byte b }
{
    match b {
        b'a'..=b'z' => b - 0x20,
        _ => b,
    }
}

// The EBCDIC of a byte of a name; any other byte gives the substitute.
pub fn ebcdic(b: u8) -> u8
    ensures { result ≡ ebcdic b }
{
    match b {
        b'A'..=b'I' => 0xC1 + (b - b'A'),
        b'J'..=b'R' => 0xD1 + (b - b'J'),
        b'S'..=b'Z' => 0xE2 + (b - b'S'),
        b'0'..=b'9' => 0xF0 + (b - b'0'),
        b'$' => 0x5B,
        b'#' => 0x7B,
        b'@' => 0x7C,
        b'_' => 0x6D,
        _ => SUBSTITUTE,
    }
}

// Whether a byte, raised already, may be in a name: those bytes have an EBCDIC of their own, and no other has.
pub fn is_name_byte(b: u8) -> bool
    ensures { result ≡ is_name_byte b }
{
    ebcdic(b) != SUBSTITUTE
}

// Whether each byte of a text, raised, may be in a name.
fn are_name_bytes(text: &[u8]) -> bool
    ensures { result ≡ every is_name_byte (raised text.now) }
{
    text.iter().all(|b| is_name_byte(raise(*b)))
}

// Whether a text is a name of at most `limit` bytes.
pub fn is_name(text: &[u8], limit: usize) -> bool
    ensures { result ≡ is_name limit text.now }
{
    if text.len() == 0 {
        return false;
    }
    if limit < text.len() {
        return false;
    }
    are_name_bytes(text)
}

// A text raised, with zeros after it.
fn raised_bytes(text: &[u8]) -> [u8; 10]
    requires { length text.now ≤ 10 }
    ensures { result ≡ filled 0 10 (raised text.now) }
{
    let mut bytes = [0u8; PROFILE_LIMIT];
    for i in 0..text.len() {
        bytes[i] = raise(text[i]);
    }
    bytes
}

// The name of at most `limit` bytes that a text gives.
fn name_of(text: &[u8], limit: usize) -> Name
    requires { limit ≤ 10 }
    ensures { result ≡ named limit text.now }
{
    if is_name(text, limit) {
        let bytes = raised_bytes(text);
        return Name {
            bytes,
            length: text.len(),
        };
    }
    Name {
        bytes: [0u8; PROFILE_LIMIT],
        length: 0,
    }
}

// The profile name that a text gives.
pub fn profile_name(text: &[u8]) -> Name
    ensures { result ≡ named profile_limit text.now }
{
    name_of(text, PROFILE_LIMIT)
}

// The device name that a text gives, by the rule of profile names.
pub fn device_name(text: &[u8]) -> Name
    ensures { result ≡ named device_limit text.now }
{
    profile_name(text)
}

// The system name that a text gives.
pub fn system_name(text: &[u8]) -> Name
    ensures { result ≡ named system_limit text.now }
{
    name_of(text, SYSTEM_LIMIT)
}
