// The related pairs, as a row of one bit for each state. Where the words of a row stand only this crate knows; it hands one out by `part`.
#![tactic(auto)]

ghost use Rattle.std.specs.Prelude.{◌+◌, ◌*◌, ◌≤◌, ◌<◌, ◌≡◌, cond};
ghost use Rattle.bisimulation.specs.definitions.Choice.{count_below};
ghost use Rattle.rules.specs.definitions.Limits.{limits};
ghost use Rattle.limits.specs.Sizes.{row_words};
ghost use Rattle.word.specs.Bits.{word_bits, AreSame};
ghost use Rattle.pairs.specs.Rows.{row_bits, word_of, bit_in, row_bit, word_at, IsPart, NoRows, put_rows, removed_rows, related_rows, copied_rows, IsNextState};

use limits::{ROW_WORDS, STATES};
use word::{BITS, Word};

pub type Rows = [Word; ROW_WORDS];

// Rows that hold nothing yet.
pub fn no_rows() -> Rows
    ensures { NoRows result }
{
    [0; ROW_WORDS]
}

// The word with the bit of (v,u).
fn word_of(v: usize, u: usize) -> usize
    requires { (v < limits.states) × (u < limits.states) }
    ensures { (result ≡ word_of v u) × (result < row_words) }
{
    2 * v + u / BITS
}

// Where the bit of u stands in its word.
fn bit_in(u: usize) -> usize
    requires { u < limits.states }
    ensures { (result ≡ bit_in u) × (result < word_bits) }
{
    u % BITS
}

// Word k of row v.
fn word_at(rows: &Rows, v: usize, k: usize) -> Word
    requires { (v < limits.states) × (k < 2) }
    ensures { result ≡ word_at rows.now v k }
{
    let at = 2 * v + k;
    rows[at]
}

// The same for other crates: bit i is that of (v, k * BITS + i).
pub fn part(rows: &Rows, v: usize, k: usize) -> Word
    requires { (v < limits.states) × (k < 2) }
    ensures { IsPart rows.now v (k * word_bits) result }
{
    word_at(rows, v, k)
}

// The pair (v,u) is related.
pub fn related(rows: &Rows, v: usize, u: usize) -> bool
    requires { (v < limits.states) × (u < limits.states) }
    ensures { result ≡ row_bit rows.now v u }
{
    word::has(rows[word_of(v, u)], bit_in(u))
}

// The first state from u on that is related to v, if there is one, where u has its bit in the second word.
fn next_in_second(rows: &Rows, v: usize, u: usize) -> Option<usize>
    requires { (v < limits.states) × (word_bits ≤ u) × (u < limits.states) }
    ensures { IsNextState (row_bit rows.now v) u result }
{
    let second = word::next_bit(word_at(rows, v, 1), u - BITS);
    if second < BITS {
        return Some(BITS + second);
    }
    None
}

// The first state from u on that is related to v, if there is one.
pub fn next_related(rows: &Rows, v: usize, u: usize) -> Option<usize>
    requires { (v < limits.states) × (u ≤ limits.states) }
    ensures { IsNextState (row_bit rows.now v) u result }
{
    if STATES <= u {
        return None;
    }
    if BITS <= u {
        return next_in_second(rows, v, u);
    }
    let first = word::next_bit(word_at(rows, v, 0), u);
    if first < BITS {
        return Some(first);
    }
    next_in_second(rows, v, BITS)
}

// How many states are related to v.
pub fn count_related(rows: &Rows, v: usize) -> usize
    requires { v < limits.states }
    ensures { result ≡ count_below row_bits (row_bit rows.now v) }
{
    word::ones(word_at(rows, v, 0)) + word::ones(word_at(rows, v, 1))
}

// Row v of a and row u of b have the same bits.
pub fn same_in(a: &Rows, v: usize, b: &Rows, u: usize) -> bool
    requires { (v < limits.states) × (u < limits.states) }
    ensures { AreSame row_bits (row_bit a.now v) (row_bit b.now u) result }
{
    word::same(word_at(a, v, 0), word_at(b, u, 0)) && word::same(word_at(a, v, 1), word_at(b, u, 1))
}

// Makes the bit of (v,u) tell whether the pair is related.
fn put(rows: &mut Rows, v: usize, u: usize, related: bool)
    requires { (v < limits.states) × (u < limits.states) }
    ensures { rows.new ≡ put_rows (cond related 1 0) v u rows.old }
{
    let at = word_of(v, u);
    let bit = bit_in(u);
    rows[at] = if related {
        word::with(rows[at], bit)
    } else {
        word::without(rows[at], bit)
    };
}

// Removes (s,t) and (t,s).
pub fn remove(rows: &mut Rows, s: usize, t: usize)
    requires { (s < limits.states) × (t < limits.states) }
    ensures { rows.new ≡ removed_rows s t rows.old }
{
    put(rows, t, s, false);
    put(rows, s, t, false);
}

// Sets the bit of (v,u).
pub fn relate(rows: &mut Rows, v: usize, u: usize)
    requires { (v < limits.states) × (u < limits.states) }
    ensures { rows.new ≡ related_rows v u rows.old }
{
    put(rows, v, u, true);
}

// Makes row v that of row u of the other rows.
pub fn copy_row(rows: &mut Rows, v: usize, from: &Rows, u: usize)
    requires { (v < limits.states) × (u < limits.states) }
    ensures { rows.new ≡ copied_rows from.now u v rows.old }
{
    rows[2 * v] = word_at(from, u, 0);
    rows[2 * v + 1] = word_at(from, u, 1);
}
