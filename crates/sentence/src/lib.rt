// A sentence that tells an answer's five values.
#![tactic(auto)]

ghost use Rattle.std.specs.Prelude.{◌+◌, ◌≤◌, ◌++◌, length};
ghost use Rattle.numbers.specs.definitions.Decimal.{decimal};
ghost use Rattle.sentences.specs.definitions.Sentence.{sentence};
ghost use Rattle.writer.specs.Appends.{Appends};
ghost use Rattle.answer.specs.Answered.{FileWritten};
ghost use Rattle.sentence.specs.Parts.{opening, fields, closing};
ghost use Rattle.sentence.specs.Sentence.{told, SentenceAnswered, Hands};

use answer::Answer;
use fault::Refusal;

// The bytes of the longest sentence.
pub const LONGEST: usize = 201;

// A text and behind it a number, appended.
fn write_named(out: &mut [u8], at: usize, name: &[u8], x: usize) -> usize
    requires { at + length name.now + length (decimal x) ≤ length out.old }
    ensures { Appends (name.now ++ decimal x) at out.old out.new result }
{
    let next = writer::part(out, at, name);
    decimals::write_decimal(out, next, x)
}

// The number and its phrase.
fn write_opening(out: &mut [u8], number: u32) -> usize
    requires { length (opening number) ≤ length out.old }
    ensures { Appends (opening number) 0 out.old out.new result }
{
    let colon = write_named(out, 0, b"Answer ", number as usize);
    let phrase = writer::part(out, colon, b": ");
    phrases::write_phrase(out, phrase, number)
}

fn write_fields(out: &mut [u8], at: usize, file: u32, place: usize, state: u32) -> usize
    requires { at + length (fields file place state) ≤ length out.old }
    ensures { Appends (fields file place state) at out.old out.new result }
{
    let second = write_named(out, at, b" (file ", file as usize);
    let third = write_named(out, second, b", place ", place);
    write_named(out, third, b", state ", state as usize)
}

fn write_closing(out: &mut [u8], at: usize, remainder: i64) -> usize
    requires { at + length (closing remainder) ≤ length out.old }
    ensures { Appends (closing remainder) at out.old out.new result }
{
    let sign = writer::part(out, at, b", remainder ");
    let end = decimals::write_signed(out, sign, remainder);
    writer::part(out, end, b").")
}

// The sentence at the start of a buffer that has room for it, and its length.
fn compose(
    out: &mut [u8],
    number: u32,
    file: u32,
    place: usize,
    state: u32,
    remainder: i64,
) -> usize
    requires { length (sentence (told number file place state remainder)) ≤ length out.old }
    ensures { Appends (sentence (told number file place state remainder)) 0 out.old out.new result }
{
    let first = write_opening(out, number);
    let last = write_fields(out, first, file, place, state);
    write_closing(out, last, remainder)
}

// The text of a sentence written if there is room for it, and its length.
fn write_file(text: &[u8], out: &mut [u8]) -> usize
    ensures { FileWritten text.now out.old out.new result }
{
    let size = text.len();
    if size <= out.len() {
        writer::part(out, 0, text);
    }
    size
}

// The text of a sentence: 39, or it is written.
fn hand_over(text: &[u8], out: &mut [u8]) -> Answer
    ensures { Hands text.now out.old out.new result }
{
    let room = out.len();
    let size = write_file(text, out);
    Answer::of_file(Refusal::SentenceRoom, size, room)
}

// What the call that composes a sentence answers. The sentence is composed in a table of its own, so that nothing is written before its
// length is known.
pub fn sentence_answer(
    number: u32,
    file: u32,
    place: usize,
    state: u32,
    remainder: i64,
    out: &mut [u8],
) -> Answer
    ensures { SentenceAnswered (told number file place state remainder) out.old out.new result }
{
    let mut composed = [0u8; LONGEST];
    let size = compose(&mut composed, number, file, place, state, remainder);
    hand_over(&composed[..size], out)
}
