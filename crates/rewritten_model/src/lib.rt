// The file of a sound model with each transition in lowest terms, written into a buffer with room for it. What stands behind the transitions, the
// costs of a cost model, stays.
#![tactic(auto)]

ghost use Rattle.std.specs.Prelude.{◌≡◌, ◌≤◌, ◌++◌, map, length, drop};
ghost use Rattle.rules.specs.definitions.Model.{entries_bytes, transition_bytes};
ghost use Rattle.rules.specs.definitions.LowestTerms.{divided_entry, in_lowest};
ghost use Rattle.rules.specs.definitions.Reading.{entries_at, transition_at, place_of};
ghost use Rattle.writer.specs.Appends.{Appends};
ghost use Rattle.divisors.specs.Table.{HoldsDivisors};
ghost use Rattle.rewritten_model.specs.Lowest.{CanDivideEntries, CanDivide, lowest_records, CanWriteRecords, lowest_file};

use divisors::Divisors;
use field::Cursor;
use sound_model::SoundModel;

// So many entries, from a place of the model on, with their weights divided by g. Hands back the place after them.
fn write_entries(
    s: &[u8],
    count: usize,
    first: Cursor,
    g: usize,
    out: &mut [u8],
    at: usize,
) -> usize
    requires { CanDivideEntries s.now count first.at g out.old at }
    ensures { Appends (entries_bytes (map (divided_entry g) (entries_at s.now count first.at))) at out.old out.new result }
{
    let mut next = at;
    for entry in transition::entries(s, first, count) {
        next = writer::entry(out, next, entry.state, entry.weight / g);
    }
    next
}

// The record of the transition r in lowest terms, g being its divisor.
fn write_transition(model: SoundModel, r: usize, g: usize, out: &mut [u8], at: usize) -> usize
    requires { CanDivide model.file.now model.transitions r g out.old at }
    ensures { Appends (transition_bytes (in_lowest (transition_at model.entry.file.now (place_of model.entry.file.now r)))) at out.old out.new result }
{
    let t = model.fields(r);
    let next = writer::fixed(out, at, t.source, t.action, t.denominator / g, t.count);
    write_entries(model.file, t.count, t.entries, g, out, next)
}

// All records, which keep their places.
fn write_transitions(model: SoundModel, divisors: &Divisors, out: &mut [u8], at: usize) -> usize
    requires { CanWriteRecords model.file.now model.transitions divisors.now out.old at }
    ensures { Appends (lowest_records model.entry.file.now) at out.old out.new result }
{
    let mut next = at;
    for r in 0..model.transitions {
        next = write_transition(model, r, divisors[r], out, next);
    }
    next
}

// The whole file.
pub fn write_file(model: SoundModel, divisors: &Divisors, out: &mut [u8])
    requires { HoldsDivisors model.file.now model.transitions divisors.now × (length model.file.now ≤ length out.old) }
    ensures { out.new ≡ lowest_file model.entry.file.now ++ drop (length model.entry.file.now) out.old }
{
    let at = writer::part(out, 0, &model.file[..8 + model.states]);
    let next = write_transitions(model, divisors, out, at);
    writer::part(out, next, &model.file[model.places[model.transitions]..]);
}
