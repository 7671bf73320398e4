// Names and values in a payload: bytes up to a VAR, VALUE or USERVAR, an ESC before each byte 0 to 3.
#![tactic(auto)]

ghost use Rattle.std.specs.Prelude.{◌≡◌, ◌≤◌, length, drop};
ghost use Rattle.env_text.specs.Text.{ends_text, text_at, copy_text};
ghost use Rattle.env_text.specs.Internal.Scan.{IsWidth, IsExtent};
ghost use Rattle.octets.specs.Lent.{outcome};

use env::{ESC, USERVAR};
use octets::no_room;

// A name or a value in a payload: whether it is whole, its length without ESCs, and the place after it.
#[derive(Clone, Copy)]
pub struct Text {
    pub whole: bool,
    pub length: usize,
    pub end: usize,
}

// How far a text goes: its length without ESCs, and the place after it.
#[derive(Clone, Copy)]
pub struct Extent {
    pub length: usize,
    pub end: usize,
}

// How many bytes the first byte of a text takes; none where the text is over.
fn width_at(s: &[u8], i: usize) -> usize
    ensures { IsWidth s.now i result }
{
    if s.len() <= i {
        return 0;
    }
    if s[i] > USERVAR {
        return 1;
    }
    if s[i] != ESC {
        return 0;
    }
    if s.len() <= i + 1 {
        return 0;
    }
    if s[i + 1] > USERVAR {
        return 0;
    }
    2
}

// Whether there is nothing at a place, or a VAR, VALUE or USERVAR.
fn ends_text(s: &[u8], i: usize) -> bool
    ensures { result ≡ ends_text (drop i s.now) }
{
    if s.len() <= i {
        return true;
    }
    if s[i] == ESC {
        return false;
    }
    s[i] <= USERVAR
}

// How far the text from a place on goes.
fn extent_at(s: &[u8], from: usize) -> Extent
    requires { from ≤ length s.now }
    ensures { IsExtent s.now from result }
{
    let mut i = from;
    let mut n = 0;
    let mut w = width_at(s, i);
    while w > 0 {
        i += w;
        n += 1;
        w = width_at(s, i);
    }
    Extent { length: n, end: i }
}

// The text from a place on.
pub fn text_at(s: &[u8], from: usize) -> Text
    ensures { result ≡ text_at s.now from }
{
    if s.len() < from {
        return Text {
            whole: true,
            length: 0,
            end: s.len(),
        };
    }
    let e = extent_at(s, from);
    let whole = ends_text(s, e.end);
    Text {
        whole: whole,
        length: e.length,
        end: e.end,
    }
}

// Copies the first `count` bytes of the text from a place on, without its ESCs, to a place of the buffer; where they do
// not fit, nothing.
pub fn copy_text(s: &[u8], from: usize, count: usize, out: &mut [u8], at: usize) -> bool
    ensures { outcome result out.new ≡ copy_text s.now from count out.old at }
{
    if no_room(count, at, out.len()) {
        return false;
    }
    let mut i = from;
    for k in 0..count {
        let w = width_at(s, i);
        if w == 0 {
            return true;
        }
        out[at + k] = s[i + w - 1];
        i += w;
    }
    true
}
