// The call that reads a PRISM text: its lines judged, and the model that it holds written.
#![tactic(auto)]

ghost use Rattle.std.specs.Prelude.{◌≤◌, length};
ghost use Rattle.rules.specs.definitions.Faults as rules;
ghost use Rattle.rules.specs.definitions.Answers.{refusal_in};
ghost use Rattle.fault.specs.Faults.{number_of};
ghost use Rattle.answer.specs.Answered.{Says};
ghost use Rattle.read_prism.specs.Prism.{PrismAnswered, PrismSays, HeadEnds, CanWriteFile, WritesFile, CanWriteHeld, HeldWritten};

use answer::Answer;
use fault::Refusal;
use limits::{ACTIONS, RECORDS, STATES};
use prism_choice::{Target, Targets};
use prism_line::Head;
use prism_names::Name;
use prism_step::Progress;

// A refusal at a place of the text.
fn refused_at(text: &[u8], refusal: Refusal, place: usize) -> Answer
    requires { place ≤ length text.now }
    ensures { Says (refusal_in (rules.fault (number_of refusal)) 1 place (length text.now)) 0 result }
{
    Answer::refused_in(refusal.fault().at(place), 1, text.len())
}

// The file of a model whose labels are all 0, written if there is room for it, and its length.
fn write_file(n: usize, m: usize, count: usize, records: &[u8], out: &mut [u8]) -> usize
    requires { CanWriteFile n m count records.now }
    ensures { WritesFile n m count records.now out.old out.new result }
{
    let labels = [0u8; STATES];
    let size = 8 + n + records.len();
    if size <= out.len() {
        writer::write_model(out, m, &labels[..n], count, records);
    }
    size
}

// The model of what was read.
fn write_held(
    head: Head,
    p: Progress,
    targets: &Targets,
    records: &mut [u8],
    out: &mut [u8],
) -> Answer
    requires { CanWriteHeld head p targets.now records.old }
    ensures { HeldWritten head p targets.now records.old out.old out.new result }
{
    let used = prism_step::end_choice(p, targets, records);
    let room = out.len();
    let size = write_file(
        head.states,
        p.names + 1,
        head.choices,
        &records[..used],
        out,
    );
    Answer::of_file(Refusal::TextRoom, size, room)
}

// A text whose head line ends at a place.
fn read_headed(text: &[u8], end: usize, out: &mut [u8]) -> Answer
    requires { HeadEnds text.now end }
    ensures { PrismSays text.now out.old out.new result }
{
    let Some(head) = prism_line::read_head(&text[..end]) else {
        return refused_at(text, Refusal::TextLine, 0);
    };
    let mut names = [Name { from: 0, to: 0 }; ACTIONS];
    let mut targets = [Target { state: 0, parts: 0 }; STATES];
    let mut records = [0u8; RECORDS];
    match prism_text::read_lines(text, end + 1, head, &mut names, &mut targets, &mut records) {
        Ok(p) => write_held(head, p, &targets, &mut records, out),
        Err(wrong) => Answer::refused_in(wrong, 1, text.len()),
    }
}

// What the call answers.
pub fn read_prism_answer(text: &[u8], out: &mut [u8]) -> Answer
    ensures { PrismAnswered text.now out.old out.new result }
{
    let end = text_fields::piece_end(text, 0, 0x0A);
    if end == text.len() {
        return refused_at(text, Refusal::TextLine, 0);
    }
    read_headed(text, end, out)
}
