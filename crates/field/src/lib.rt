// A reading place in a file, by value. Each method hands back the field that it read with the cursor moved past it.
#![tactic(auto)]

ghost use Rattle.std.specs.Prelude.{◌+◌, ◌<◌, length, ◌≡◌};
ghost use Rattle.rules.specs.definitions.Bytes.{byte_at, two_at, four_at};
ghost use Rattle.field.specs.Taken.{Taken, IsByte, IsLowered, Priced};

#[derive(Clone, Copy)]
pub struct Cursor {
    pub at: usize,
}

#[derive(Clone, Copy)]
pub struct Field {
    pub value: usize,
    pub next: Cursor,
}

#[derive(Clone, Copy)]
pub struct Price {
    pub value: i64,
    pub next: Cursor,
}

fn wide(x: u8) -> usize
    ensures { IsByte x result }
{
    x as usize
}

// A number moved down by half of what four bytes hold.
fn lowered(x: usize) -> i64
    requires { x < 4294967296 }
    ensures { IsLowered x result }
{
    x as i64 - 0x8000_0000
}

impl Cursor {
    pub fn new(at: usize) -> Self
        ensures { result.at ≡ at }
    {
        Cursor { at }
    }

    // The field of one byte.
    pub fn byte(self, s: &[u8]) -> Field
        requires { self.at < length s.now }
        ensures { Taken s.now byte_at self.at 1 256 result }
    {
        let at = self.at;
        Field {
            value: wide(s[at]),
            next: Cursor { at: at + 1 },
        }
    }

    // The field of two bytes, most significant first.
    pub fn pair(self, s: &[u8]) -> Field
        requires { self.at + 1 < length s.now }
        ensures { Taken s.now two_at self.at 2 65536 result }
    {
        let at = self.at;
        let low = at + 1;
        Field {
            value: wide(s[at]) * 256 + wide(s[low]),
            next: Cursor { at: at + 2 },
        }
    }

    // The field of four bytes, most significant first.
    pub fn quad(self, s: &[u8]) -> Field
        requires { self.at + 3 < length s.now }
        ensures { Taken s.now four_at self.at 4 4294967296 result }
    {
        let at = self.at;
        let high = self.pair(s);
        let middle = high.next;
        let low = middle.pair(s);
        Field {
            value: high.value * 65536 + low.value,
            next: Cursor { at: at + 4 },
        }
    }

    // The field of four bytes as two's complement: moved up by half, cut off to four bytes, and moved down.
    pub fn price(self, s: &[u8]) -> Price
        requires { self.at + 3 < length s.now }
        ensures { Priced s.now self.at result }
    {
        let field = self.quad(s);
        let next = field.next;
        Price {
            value: lowered((field.value + 0x8000_0000) % 0x1_0000_0000),
            next,
        }
    }
}
