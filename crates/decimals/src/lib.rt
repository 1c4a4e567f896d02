// Numbers in decimal, appended to what stands in a lent buffer. Each function hands back the place after what it wrote.
#![tactic(auto)]

ghost use Rattle.std.specs.Prelude.{◌+◌, ◌≤◌, ◌≡◌, length};
ghost use Rattle.numbers.specs.definitions.Decimal.{decimal};
ghost use Rattle.sentences.specs.definitions.Sentence.{signed_decimal};
ghost use Rattle.writer.specs.Appends.{Appends};

// No number of 64 bits has more digits.
const DIGITS: usize = 20;

// The digits into a table, the last one first, and then the part of it that they fill.
pub fn write_decimal(out: &mut [u8], at: usize, x: usize) -> usize
    requires { at + length (decimal x) ≤ length out.old }
    ensures { Appends (decimal x) at out.old out.new result }
{
    let mut digits = [0u8; DIGITS];
    let mut from = DIGITS - 1;
    let mut left = x;
    while 10 <= left {
        digits[from] = (0x30 + left % 10) as u8;
        from -= 1;
        left /= 10;
    }
    digits[from] = (0x30 + left) as u8;
    writer::part(out, at, &digits[from..])
}

// A number with a sign, which stands before the negative ones.
pub fn write_signed(out: &mut [u8], at: usize, z: i64) -> usize
    requires { at + length (signed_decimal z) ≤ length out.old }
    ensures { Appends (signed_decimal z) at out.old out.new result }
{
    let amount = z.unsigned_abs() as usize;
    if z < 0 {
        let next = writer::byte(out, at, 0x2D);
        return write_decimal(out, next, amount);
    }
    write_decimal(out, at, amount)
}
