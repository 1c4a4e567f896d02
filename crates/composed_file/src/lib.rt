// The file of the composition of two models, written from their bytes in one pass. Each function hands back the place after what it wrote.
#![tactic(auto)]

ghost use Rattle.rules.specs.definitions.Reading.{model_at};
ghost use Rattle.writer.specs.Appends.{Appends};
ghost use Rattle.transition.specs.Known.{automaton_in};
ghost use Rattle.composition.specs.definitions.Composition.{composed_file};
ghost use Rattle.composed_size.specs.Sides.{composed_in};
ghost use Rattle.composed_states.specs.Needs.{IsRun, CanWriteMoves};
ghost use Rattle.composed_file.specs.ComposedFile.{row_records, all_records, CanWriteComposed};
ghost use Rattle.composed_file.specs.Labels.{label_row, CanWriteLabelRow, CanWriteLabels};

use composed_size::Side;
use composed_states::Run;

// The moves from each state (s,e) of one s.
fn write_row(left: Side, from: Run, right: Side, out: &mut [u8], at: usize) -> usize
    requires { CanWriteMoves left right (row_records left.file.now right.file.now from.state) out.old at × IsRun (automaton_in left.file.now) from }
    ensures { Appends (row_records left.entry.file.now right.entry.file.now from.state) at out.old out.new result }
{
    let mut first = 0;
    let mut next = at;
    for e in 0..right.model.states {
        let past = runs::run_past(right.file, right.model.transitions, right.places, e, first);
        let run = Run {
            state: e,
            first,
            past,
        };
        next = composed_states::write_state(left, from, right, run, out, next);
        first = past;
    }
    next
}

// The moves from all states.
fn write_moves(left: Side, right: Side, out: &mut [u8], at: usize) -> usize
    requires { CanWriteMoves left right (all_records left.file.now right.file.now) out.old at }
    ensures { Appends (all_records left.entry.file.now right.entry.file.now) at out.old out.new result }
{
    let mut first = 0;
    let mut next = at;
    for s in 0..left.model.states {
        let past = runs::run_past(left.file, left.model.transitions, left.places, s, first);
        let from = Run {
            state: s,
            first,
            past,
        };
        next = write_row(left, from, right, out, next);
        first = past;
    }
    next
}

// The labels of the states (s,e) of an s with this label; `factor` is one more than the right's highest.
fn write_label_row(label: usize, factor: usize, right: Side, out: &mut [u8], at: usize) -> usize
    requires { CanWriteLabelRow label factor right.file.now right.model.states out.old at }
    ensures { Appends (label_row label factor right.entry.file.now right.entry.model.states) at out.old out.new result }
{
    let mut next = at;
    for &own in &right.file[8..8 + right.model.states] {
        next = writer::byte(out, next, label * factor + own as usize);
    }
    next
}

// The labels of all states.
fn write_labels(left: Side, factor: usize, right: Side, out: &mut [u8], at: usize) -> usize
    requires { CanWriteLabels left.file.now left.model.states factor right.file.now right.model.states out.old at }
    ensures { Appends (composed_in left.entry.file.now right.entry.file.now).labels at out.old out.new result }
{
    let mut next = at;
    for &label in &left.file[8..8 + left.model.states] {
        next = write_label_row(label as usize, factor, right, out, next);
    }
    next
}

// The file of the composition, of so many transitions; `factor` is one more than the right's highest label.
pub fn write_composed(
    left: Side,
    right: Side,
    factor: usize,
    transitions: usize,
    out: &mut [u8],
) -> usize
    requires { CanWriteComposed left right factor transitions out.old }
    ensures { Appends (composed_file (model_at left.entry.file.now) (model_at right.entry.file.now)) 0 out.old out.new result }
{
    let actions = two_models::larger(left.model.actions, right.model.actions);
    let labels = writer::head(
        out,
        left.model.states * right.model.states,
        actions,
        transitions,
    );
    let records = write_labels(left, factor, right, out, labels);
    write_moves(left, right, out, records)
}
