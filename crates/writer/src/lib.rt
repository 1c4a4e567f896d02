// The model writer: the records of a model appended to what stands in a lent buffer. Each function hands back the place after what it
// wrote.
#![tactic(auto)]

ghost use Rattle.std.specs.Prelude.{◌+◌, ◌≤◌, ◌<◌, length, [], ◌∷◌};
ghost use Rattle.rules.specs.definitions.Bytes.{two_bytes};
ghost use Rattle.rules.specs.definitions.Encoding.{four_bytes};
ghost use Rattle.writer.specs.Appends.{Appends, start_bytes, fixed_bytes, head_bytes_of, CanWriteModel, WritesModel};

// A field of one byte.
pub fn byte(out: &mut [u8], at: usize, x: usize) -> usize
    requires { (at + 1 ≤ length out.old) × (x < 256) }
    ensures { Appends (x ∷ []) at out.old out.new result }
{
    out[at] = x as u8;
    at + 1
}

// A field of two bytes, most significant first.
pub fn pair(out: &mut [u8], at: usize, x: usize) -> usize
    requires { (at + 2 ≤ length out.old) × (x < 65536) }
    ensures { Appends (two_bytes x) at out.old out.new result }
{
    let low = byte(out, at, x / 256);
    byte(out, low, x % 256)
}

// A field of four bytes.
pub fn quad(out: &mut [u8], at: usize, x: usize) -> usize
    requires { (at + 4 ≤ length out.old) × (x < 4294967296) }
    ensures { Appends (four_bytes x) at out.old out.new result }
{
    let low = pair(out, at, x / 65536);
    pair(out, low, x % 65536)
}

// An entry of a transition.
pub fn entry(out: &mut [u8], at: usize, state: usize, weight: usize) -> usize
    requires { (at + 3 ≤ length out.old) × (state < 256) × (weight < 65536) }
    ensures { Appends (state ∷ two_bytes weight) at out.old out.new result }
{
    let next = byte(out, at, state);
    pair(out, next, weight)
}

// What a head and a transition start with: the mark, two fields of one byte and one of two.
fn start(out: &mut [u8], at: usize, mark: usize, first: usize, second: usize, third: usize) -> usize
    requires { (at + 6 ≤ length out.old) × (mark < 65536) × (first < 256) × (second < 256) × (third < 65536) }
    ensures { Appends (start_bytes mark first second third) at out.old out.new result }
{
    let fields = pair(out, at, mark);
    let middle = byte(out, fields, first);
    let last = byte(out, middle, second);
    pair(out, last, third)
}

// The fixed fields of a transition with so many entries.
pub fn fixed(
    out: &mut [u8],
    at: usize,
    source: usize,
    action: usize,
    denominator: usize,
    count: usize,
) -> usize
    requires { (at + 7 ≤ length out.old) × (source < 256) × (action < 256) × (denominator < 65536) × (count < 256) }
    ensures { Appends (fixed_bytes source action denominator count) at out.old out.new result }
{
    let next = start(out, at, 0x5452, source, action, denominator);
    byte(out, next, count)
}

// The head, and the mark of the labels.
pub fn head(out: &mut [u8], n: usize, m: usize, count: usize) -> usize
    requires { (8 ≤ length out.old) × (n < 256) × (m < 256) × (count < 65536) }
    ensures { Appends (head_bytes_of n m count) 0 out.old out.new result }
{
    let next = start(out, 0, 0x5041, n, m, count);
    pair(out, next, 0x4C42)
}

// Bytes that stand elsewhere.
pub fn part(out: &mut [u8], at: usize, given: &[u8]) -> usize
    requires { at + length given.now ≤ length out.old }
    ensures { Appends given.now at out.old out.new result }
{
    let next = at + given.len();
    out[at..next].copy_from_slice(given);
    next
}

// A model's file, from its labels and its transition records, wherever they stand.
pub fn write_model(out: &mut [u8], m: usize, labels: &[u8], count: usize, records: &[u8]) -> usize
    requires { CanWriteModel m labels.now count records.now out.old }
    ensures { WritesModel m labels.now count records.now out.old out.new result }
{
    let at = head(out, labels.len(), m, count);
    let next = part(out, at, labels);
    part(out, next, records)
}
