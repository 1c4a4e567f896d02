// The lines of a PRISM text in their order, each judged once.
#![tactic(auto)]

ghost use Rattle.std.specs.Prelude.{◌≤◌, ◌≡◌};
ghost use Rattle.rules.specs.definitions.Limits.{limits};
ghost use Rattle.prism_text.specs.LinesRead.{counts_by, CanRead, LinesRead};

use fault::{Fault, Refusal};
use prism_choice::Targets;
use prism_line::Head;
use prism_names::Names;
use prism_step::Progress;

const NEWLINE: u8 = 0x0A;

// Whether the head's counts are the text's.
#[tactic(auto, unfolding(bisimulation::specs::definitions::Choice::if_same))]
fn counts(head: Head, p: Progress) -> bool
    requires { p.choices ≤ limits.transitions }
    ensures { result ≡ counts_by head p }
{
    if prism_step::choices_of(p) != head.choices {
        return false;
    }
    p.lines == head.transitions
}

// The lines from a place on.
pub fn read_lines(
    text: &[u8],
    from: usize,
    head: Head,
    names: &mut Names,
    targets: &mut Targets,
    records: &mut [u8],
) -> Result<Progress, Fault>
    requires { CanRead text.now from head names.old targets.old records.old }
    ensures { LinesRead text.now from head names.new targets.new records.new result }
{
    let mut p = prism_step::nothing_read();
    let mut at = from;
    'lines: loop {
        let end = text_fields::piece_end(text, at, NEWLINE);
        let line = prism_line::read_line(&text[at..end]);
        if let Some(place) = prism_step::short_at(p, line) {
            return Err(Refusal::TextSum.fault().at(place));
        }
        if end == text.len() {
            if at == end && counts(head, p) {
                return Ok(p);
            }
            return Err(Refusal::TextLine.fault().at(at));
        }
        let Some(next) = prism_step::step(
            text,
            at,
            end,
            head.states,
            p,
            line,
            names,
            targets,
            records,
        ) else {
            return Err(Refusal::TextLine.fault().at(at));
        };
        p = next;
        at = end + 1;
    }
}
