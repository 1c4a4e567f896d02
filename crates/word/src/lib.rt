// The bits of one of the machine's words.
#![tactic(auto)]

ghost use Rattle.std.specs.Prelude.{◌*◌, ◌<◌, ◌≡◌};
ghost use Rattle.bisimulation.specs.definitions.Choice.{count_below};
ghost use Rattle.word.specs.Bits.{word_bits, bit_of, set_bit, clear_bit, AreSame, IsNextBelow};

pub type Word = u64;

// How many bits a word has.
pub const BITS: usize = 64;

// The bit of u is 1.
pub fn has(word: Word, u: usize) -> bool
    requires { u < word_bits }
    ensures { result ≡ bit_of word u }
{
    word >> u & 1 == 1
}

// The word with the bit of u.
pub fn with(word: Word, u: usize) -> Word
    requires { u < word_bits }
    ensures { result ≡ set_bit word u }
{
    word | 1 << u
}

// The word without the bit of u.
pub fn without(word: Word, u: usize) -> Word
    requires { u < word_bits }
    ensures { result ≡ clear_bit word u }
{
    word & !(1 << u)
}

// The words have the same bits.
pub fn same(a: Word, b: Word) -> bool
    ensures { AreSame word_bits (bit_of a) (bit_of b) result }
{
    a == b
}

// The first bit from u on that is 1, no number below BITS where there is none: a number, for the scans of the innermost loops.
pub fn next_bit(word: Word, u: usize) -> usize
    requires { u < word_bits }
    ensures { IsNextBelow word_bits (bit_of word) u result × (result < 2 * word_bits) }
{
    u + u64::trailing_zeros(word >> u) as usize
}

// How many bits are 1.
pub fn ones(word: Word) -> usize
    ensures { result ≡ count_below word_bits (bit_of word) }
{
    u64::count_ones(word) as usize
}
