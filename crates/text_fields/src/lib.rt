// The fields of a text: pieces between bytes that part them, numbers, probabilities, names.
#![tactic(auto)]

ghost use Rattle.std.specs.Prelude.{◌*◌, ◌-◌, ◌^◌, ◌≤◌, ◌<◌, ◌≡◌, [], ◌∷◌, length, drop};
ghost use Rattle.prism.specs.definitions.Lines.{ten_thousandths, is_name};
ghost use Rattle.prism.specs.definitions.Reading.{same_bytes};
ghost use Rattle.text_fields.specs.Fields.{PieceEnds, number_below, digits_from, IsBelow, IsPositive};

// Numbers are read below this: no limit is as high.
const NUMBERS: usize = 65536;

// Where the piece that begins at a place ends: at the first byte that parts, or at the end. Out of line its loop keeps one place alone.
#[inline(never)]
pub fn piece_end(s: &[u8], from: usize, parting: u8) -> usize
    requires { from ≤ length s.now }
    ensures { PieceEnds s.now from parting result }
{
    for at in from..s.len() {
        if s[at] == parting {
            return at;
        }
    }
    s.len()
}

// The value of digits with one more behind them; none where that is no digit, or the value is too high.
fn with_digit(v: usize, b: u8) -> Option<usize>
    requires { v < 65536 }
    ensures { IsBelow 65536 (digits_from 65536 v (b ∷ [])) result }
{
    if !b.is_ascii_digit() {
        return None;
    }
    let value = v * 10 + usize::from(b - b'0');
    if value < NUMBERS {
        return Some(value);
    }
    None
}

// The value of the digits of a field; none where a byte is no digit, or the value is too high.
fn digits(s: &[u8]) -> Option<usize>
    ensures { IsBelow 65536 (digits_from 65536 0 s.now) result }
{
    let mut v = 0;
    for b in s {
        v = with_digit(v, *b)?;
    }
    Some(v)
}

// A number without leading zeros, of as many digits as one will; none where the field is no number, or one that is too high.
pub fn number(s: &[u8]) -> Option<usize>
    ensures { IsBelow 65536 (number_below 65536 s.now) result }
{
    if s.is_empty() {
        return None;
    }
    if 1 < s.len() && s[0] == b'0' {
        return None;
    }
    digits(s)
}

// Digits behind the point of a field of so many bytes, in ten-thousandths.
fn scaled(v: usize, size: usize) -> usize
    requires { (v < 65536) × (3 ≤ size) × (size ≤ 6) }
    ensures { result ≡ v * 10 ^ (6 - size) }
{
    match size {
        3 => v * 1000,
        4 => v * 100,
        5 => v * 10,
        _ => v,
    }
}

// A probability in ten-thousandths; none where the field is none.
pub fn probability(s: &[u8]) -> Option<usize>
    ensures { IsPositive (ten_thousandths s.now) result }
{
    if s.len() == 1 {
        return (s[0] == b'1').then_some(10000);
    }
    if s.len() < 3 || 6 < s.len() || s[0] != b'0' || s[1] != b'.' {
        return None;
    }
    let parts = scaled(digits(&s[2..])?, s.len());
    (0 < parts).then_some(parts)
}

// One or more bytes from 21 to 7E (hexadecimal). No byte ends the loop, so that it takes many at once.
pub fn is_name(s: &[u8]) -> bool
    ensures { result ≡ is_name s.now }
{
    let mut shown = true;
    for b in s {
        shown &= b.is_ascii_graphic();
    }
    !s.is_empty() && shown
}

// Whether two runs of bytes are the same.
pub fn same(a: &[u8], b: &[u8]) -> bool
    ensures { result ≡ same_bytes a.now b.now }
{
    a == b
}
