// What a call answers, and how its stretch is handed back.
#![tactic(auto)]

ghost use Rattle.std.specs.Prelude.{◌≤◌, [], ◌∷◌};
ghost use Rattle.rules.specs.definitions.Answers.{refusal_in, answer_without_place};
ghost use Rattle.fault.specs.Faults.{number_of, fault_of};
ghost use Rattle.fault.specs.Numbers.{numbered_of};
ghost use Rattle.answer.specs.Answered.{Says, FileAnswered, StretchInside};
ghost use Rattle.answer.specs.Handing.{HandsBack};
ghost use Rattle.answer.specs.TwoBuffers.{Unwritten};

use fault::numbered::Numbered;
use fault::{Fault, Refusal};

// What a call answers: the papers' number, file (1 model, 2 certificate, 3 second model) and place; where the stretch, or the run of a
// fetch, starts in its file and how long it is; how many bytes were written into the (first) lent buffer; and for 16, 20 and 21 the state at which
// an equation or the last price condition breaks, with its left side less its right.
#[repr(C)]
#[derive(Clone, Copy)]
pub struct Answer {
    pub number: u32,
    pub file: u32,
    pub place: usize,
    pub stretch_start: usize,
    pub stretch_length: usize,
    pub written: usize,
    pub state: u32,
    pub remainder: i64,
}

// What a call that lends two buffers answers: beside the answer, how many bytes were written into the second.
#[repr(C)]
#[derive(Clone, Copy)]
pub struct PairAnswer {
    pub answer: Answer,
    pub certificate_written: usize,
}

// The number, and how many bytes were written, of a call that says no more.
pub fn without_place(number: u32, written: usize) -> Answer
    ensures { Says (answer_without_place number) written result }
{
    Answer {
        number,
        file: 0,
        place: 0,
        stretch_start: 0,
        stretch_length: 0,
        written,
        state: 0,
        remainder: 0,
    }
}

// A fault by its number in a file of so many bytes.
pub fn refusal_in(fault: Numbered, file: u32, size: usize) -> Answer
    requires { fault.place ≤ size }
    ensures { Says (refusal_in (numbered_of fault) file fault.place size) 0 result }
{
    Answer {
        number: fault.number,
        file,
        place: fault.place,
        stretch_start: fault.place,
        stretch_length: size - fault.place,
        written: 0,
        state: fault.state,
        remainder: fault.remainder,
    }
}

// The answer of a call that writes a file of so many bytes where its buffer has room for it, with the number that it has where there is none.
pub fn file_answer(short: u32, size: usize, room: usize) -> Answer
    ensures { FileAnswered short size room result }
{
    if room < size {
        return without_place(short, 0);
    }
    without_place(0, size)
}

impl Answer {
    // Nothing is refused, and so many bytes were written.
    pub fn written(bytes: usize) -> Answer
        ensures { Says (answer_without_place 0) bytes result }
    {
        without_place(0, bytes)
    }

    // A refusal that has no place.
    pub fn refused(refusal: Refusal) -> Answer
        ensures { Says (answer_without_place (number_of refusal)) 0 result }
    {
        without_place(refusal.number(), 0)
    }

    // A fault in a file of so many bytes.
    pub fn refused_in(fault: Fault, file: u32, size: usize) -> Answer
        requires { fault.place ≤ size }
        ensures { Says (refusal_in (fault_of fault) file fault.place size) 0 result }
    {
        refusal_in(Numbered::of(fault), file, size)
    }

    // The answer of a call that writes a file of so many bytes where its buffer has room for it, and refuses where there is none.
    pub fn of_file(short: Refusal, size: usize, room: usize) -> Answer
        ensures { FileAnswered (number_of short) size room result }
    {
        file_answer(short.number(), size, room)
    }
}

// A refusal of a call that lends two buffers: nothing is written into either.
pub fn unwritten(answer: Answer) -> PairAnswer
    ensures { Unwritten answer result }
{
    PairAnswer {
        answer,
        certificate_written: 0,
    }
}

// Hands an answer back: the tail of the slice that holds the record at fault, empty where none does, and the numbers beside it. The
// second slice is file 2.
pub fn hand_back<'a>(
    first: &'a [u8],
    second: &'a [u8],
    answer: Answer,
    number: &mut u32,
    file: &mut u32,
    place: &mut usize,
    state: &mut u32,
    remainder: &mut i64,
) -> &'a [u8]
    requires { StretchInside (first.now ∷ second.now ∷ []) answer }
    ensures { HandsBack (first.now ∷ second.now ∷ []) (first.entry.ref_ptr ∷ second.entry.ref_ptr ∷ []) answer number.new file.new place.new state.new remainder.new result.now result.ref_ptr }
{
    let start = answer.stretch_start;
    let size = answer.stretch_length;
    let off = answer.remainder;
    *number = answer.number;
    *file = answer.file;
    *place = answer.place;
    *state = answer.state;
    *remainder = off;
    if answer.file == 2 {
        return &second[start..start + size];
    }
    &first[start..start + size]
}
