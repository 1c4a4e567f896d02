// The related pairs by classes, the states with one byte: pairs of equal labels at the start, and blocks at the end.
#![tactic(auto)]

ghost use Rattle.std.specs.Prelude.{◌≤◌, ◌<◌, length, get_or, ◌≡◌};
ghost use Rattle.rules.specs.definitions.Limits.{limits};
ghost use Rattle.limits.specs.Sizes.{row_words};
ghost use Rattle.word.specs.Bits.{AreSame};
ghost use Rattle.pairs.specs.Rows.{row_bits, row_bit, NoRows, HoldsPairs};
ghost use Rattle.classes.specs.Classes.{same_labels, SmallBytes, AreClasses, Agrees};

use pairs::Rows;

// The byte of a state, as the number of a row.
fn byte_of(bytes: &[u8], n: usize, u: usize) -> usize
    requires { (u < n) × (n ≤ length bytes.now) × SmallBytes n bytes.now }
    ensures { (result ≡ get_or bytes.now u 0) × (result < limits.states) }
{
    bytes[u] as usize
}

// Makes row b that of a state with byte b, in rows that hold nothing yet.
fn classes(bytes: &[u8], n: usize, rows: &mut Rows)
    requires { (n ≤ limits.states) × (n ≤ length bytes.now) × SmallBytes n bytes.now × NoRows rows.old }
    ensures { AreClasses bytes.now n rows.new }
{
    for u in 0..n {
        let byte = byte_of(bytes, n, u);
        pairs::relate(rows, byte, u);
    }
}

// Relates every pair of the n states with equal labels.
pub fn start(labels: &[u8], n: usize, rows: &mut Rows)
    requires { (n ≤ limits.states) × (n ≤ length labels.now) × SmallBytes n labels.now × (length rows.old ≡ row_words) }
    ensures { HoldsPairs n (same_labels labels.now) rows.new }
{
    let mut members = pairs::no_rows();
    classes(labels, n, &mut members);
    for v in 0..n {
        let byte = byte_of(labels, n, v);
        pairs::copy_row(rows, v, &members, byte);
    }
}

// Row v has the bits of that of its state's block.
fn row_agrees(rows: &Rows, members: &Rows, blocks: &[u8], n: usize, v: usize) -> bool
    requires { (v < n) × (n ≤ limits.states) × (n ≤ length blocks.now) × SmallBytes n blocks.now }
    ensures { AreSame row_bits (row_bit rows.now v) (row_bit members.now (get_or blocks.now v 0)) result }
{
    pairs::same_in(rows, v, members, byte_of(blocks, n, v))
}

// Two states share a block exactly when they are related.
pub fn agrees(blocks: &[u8], n: usize, rows: &Rows) -> bool
    requires { (n ≤ limits.states) × (n ≤ length blocks.now) × SmallBytes n blocks.now }
    ensures { Agrees blocks.now n rows.now result }
{
    let mut members = pairs::no_rows();
    classes(blocks, n, &mut members);
    (0..n).all(|v| row_agrees(rows, &members, blocks, n, v))
}
