// A line of a PRISM text after those before it: it begins a choice or goes on with one, and a choice that has ended is appended as the record of a
// transition.
#![tactic(auto)]

ghost use Rattle.std.specs.Prelude.{◌+◌, ◌*◌, ◌≤◌, ◌<◌, ◌≡◌, IfSome, length};
ghost use Rattle.rules.specs.definitions.Limits.{limits};
ghost use Rattle.prism_line.specs.LineRead.{begins_so};
ghost use Rattle.writer.specs.Appends.{Appends};
ghost use Rattle.prism_step.specs.Progressing.{nothing_by, short_by, count_by, follows_by, fits_by, pending_bytes, CanEnd, Extended, CanBegin, Began, CanStep, StepSays};

use limits::{ACTIONS, ENTRIES, TRANSITIONS};
use prism_choice::{Target, Targets};
use prism_line::{Line, Whole};
use prism_names::Names;

// A choice that has begun: the place of its first line, its source, its number and action, how many targets, what they add up to, the last one, and
// the greatest common divisor.
#[derive(Clone, Copy)]
pub struct Begun {
    pub place: usize,
    pub source: usize,
    pub number: usize,
    pub action: usize,
    pub targets: usize,
    pub total: usize,
    pub last: usize,
    pub divisor: usize,
}

// What has been read: lines, choices that ended and the bytes of their records, names, and the choice that has begun.
#[derive(Clone, Copy)]
pub struct Progress {
    pub lines: usize,
    pub choices: usize,
    pub used: usize,
    pub names: usize,
    pub begun: Option<Begun>,
}

pub fn nothing_read() -> Progress
    ensures { result ≡ nothing_by }
{
    Progress {
        lines: 0,
        choices: 0,
        used: 0,
        names: 0,
        begun: None,
    }
}

// Whether a line begins with the source and number of a choice, each followed by a space.
#[tactic(auto, unfolding(bisimulation::specs::definitions::Choice::both))]
fn goes_on(c: Begun, line: Line) -> bool
    ensures { result ≡ begins_so line c.source c.number }
{
    match (line.source, line.choice) {
        (Some(source), Some(choice)) => source == c.source && choice == c.number,
        _ => false,
    }
}

// The place of the choice that has begun where it ends before this line, and does not add up to 1.
#[tactic(auto, unfolding(bisimulation::specs::definitions::Choice::if_true, bisimulation::specs::definitions::Choice::if_same))]
pub fn short_at(p: Progress, line: Line) -> Option<usize>
    ensures { result ≡ short_by p.begun line }
{
    let c = p.begun?;
    if goes_on(c, line) {
        return None;
    }
    if c.total == 10000 {
        return None;
    }
    Some(c.place)
}

// The end of the records with the one of the choice that has begun, if one has.
pub fn end_choice(p: Progress, targets: &Targets, records: &mut [u8]) -> usize
    requires { CanEnd targets.now records.old p }
    ensures { Appends (pending_bytes targets.now p.begun) p.used records.old records.new result }
{
    match p.begun {
        Some(c) => prism_choice::write_choice(
            targets, c.targets, c.source, c.action, c.divisor, records, p.used,
        ),
        None => p.used,
    }
}

// How many choices there are, with the one that has begun.
pub fn choices_of(p: Progress) -> usize
    requires { p.choices ≤ limits.transitions }
    ensures { result ≡ count_by p }
{
    match p.begun {
        Some(_) => p.choices + 1,
        None => p.choices,
    }
}

// Whether a line may begin the next choice: sources never descend, choices of a source count up from 0.
#[tactic(auto, unfolding(bisimulation::specs::definitions::Choice::if_less, bisimulation::specs::definitions::Choice::if_same))]
fn follows(begun: Option<Begun>, line: Whole) -> bool
    requires { IfSome begun (λ c. c.number ≤ limits.transitions) }
    ensures { result ≡ follows_by begun line }
{
    if let Some(c) = begun {
        if line.source == c.source {
            return line.choice == c.number + 1;
        }
        if line.source < c.source {
            return false;
        }
    }
    line.choice == 0
}

// Whether the states of a line are there, and it passes no limit.
#[tactic(auto, unfolding(crate::specs::Progressing::fits_by, bisimulation::specs::definitions::Choice::if_less))]
fn fits(states: usize, lines: usize, line: Whole) -> bool
    ensures { result ≡ fits_by states lines line }
{
    line.source < states && line.target < states && lines < ENTRIES
}

// A line that goes on with the choice that has begun; its name has this action.
#[tactic(auto, unfolding(crate::specs::Progressing::extends_by, bisimulation::specs::definitions::Choice::if_less, bisimulation::specs::definitions::Choice::if_same))]
fn extend(
    p: Progress,
    c: Begun,
    line: Whole,
    action: usize,
    targets: &mut Targets,
) -> Option<Progress>
    requires { (c.targets ≤ c.last + 1) × (line.target < limits.states) × (p.lines ≤ limits.entries) × (c.total ≤ 10000 * limits.entries) × (line.parts ≤ 10000) }
    ensures { Extended p c line action targets.old targets.new result }
{
    if line.target <= c.last {
        return None;
    }
    if action != c.action {
        return None;
    }
    targets[c.targets] = Target {
        state: line.target,
        parts: line.parts,
    };
    let begun = Begun {
        targets: c.targets + 1,
        total: c.total + line.parts,
        last: line.target,
        divisor: greatest_divisor::divisor(c.divisor, line.parts),
        ..c
    };
    Some(Progress {
        lines: p.lines + 1,
        begun: Some(begun),
        ..p
    })
}

// A line at a place that begins a choice; its name has this action, and stands at these places of the text.
fn begin(
    p: Progress,
    line: Whole,
    place: usize,
    action: usize,
    from: usize,
    to: usize,
    names: &mut Names,
    targets: &mut Targets,
    records: &mut [u8],
) -> Option<Progress>
    requires { CanBegin p action targets.old records.old }
    ensures { Began p line place action from to names.old names.new targets.old targets.new records.old records.new result }
{
    if !follows(p.begun, line) {
        return None;
    }
    let choices = choices_of(p);
    if TRANSITIONS <= choices {
        return None;
    }
    if ACTIONS <= action {
        return None;
    }
    let used = end_choice(p, targets, records);
    let seen = prism_names::with_name(names, p.names, action, from, to);
    targets[0] = Target {
        state: line.target,
        parts: line.parts,
    };
    let begun = Begun {
        place,
        source: line.source,
        number: line.choice,
        action,
        targets: 1,
        total: line.parts,
        last: line.target,
        divisor: line.parts,
    };
    Some(Progress {
        lines: p.lines + 1,
        choices,
        used,
        names: seen,
        begun: Some(begun),
    })
}

// What has been read after the line that stands at these places of the text; none where it may not stand there.
pub fn step(
    text: &[u8],
    at: usize,
    end: usize,
    states: usize,
    p: Progress,
    line: Line,
    names: &mut Names,
    targets: &mut Targets,
    records: &mut [u8],
) -> Option<Progress>
    requires { CanStep text.now at end states p line names.old targets.old records.old }
    ensures { StepSays text.now at end states p names.old names.new targets.old targets.new records.old records.new result }
{
    let whole = prism_line::whole_of(line)?;
    if !fits(states, p.lines, whole) {
        return None;
    }
    let from = at + whole.name;
    let action = prism_names::action_of(text, names, p.names, from, end);
    if let Some(c) = p.begun {
        if goes_on(c, line) {
            return extend(p, c, whole, action, targets);
        }
    }
    begin(p, whole, at, action, from, end, names, targets, records)
}
