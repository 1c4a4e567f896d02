// The file of two models written as one.
#![tactic(auto)]

ghost use Rattle.std.specs.Prelude.{◌+◌, ◌≤◌, ◌++◌, length, drop};
ghost use Rattle.rules.specs.definitions.Reading.{model_at};
ghost use Rattle.joined.specs.definitions.Joined.{joined_file};
ghost use Rattle.answer.specs.Answered.{FileWritten};
ghost use Rattle.writer.specs.Appends.{Appends};
ghost use Rattle.raised.specs.Raised.{raised_transitions};
ghost use Rattle.joined_file.specs.JoinedFile.{labels_of, CanWriteRecords, CanJoin, CanWriteJoined};

use model::{Model, Places};
use sound_model::SoundModel;

// The labels of two files, of so many states each. Hands back the place after them.
fn write_labels(first: &[u8], k: usize, second: &[u8], n: usize, out: &mut [u8], at: usize) -> usize
    requires { (8 + k ≤ length first.now) × (8 + n ≤ length second.now) × (at + (k + n) ≤ length out.old) }
    ensures { Appends (labels_of k first.now ++ labels_of n second.now) at out.old out.new result }
{
    let first_end = 8 + k;
    let second_end = 8 + n;
    let next = writer::part(out, at, &first[8..first_end]);
    writer::part(out, next, &second[8..second_end])
}

// The records of the first file as they stand from a place on, and those of the second raised by k.
fn write_records(
    first: &[u8],
    start: usize,
    second: SoundModel,
    k: usize,
    out: &mut [u8],
    at: usize,
) -> usize
    requires { CanWriteRecords first.now start second.file.now k out.old at }
    ensures { Appends (drop start first.now ++ raised_transitions k (model_at second.entry.file.now).transitions) at out.old out.new result }
{
    let records = &first[start..];
    let next = writer::part(out, at, records);
    raised::write_transitions(second, k, out, next)
}

// The joined file, and its length.
fn write_joined(
    first: &[u8],
    m: Model,
    second: &[u8],
    n: Model,
    places: &Places,
    out: &mut [u8],
) -> usize
    requires { CanWriteJoined first.now m second.now n places.now out.old }
    ensures { Appends (joined_file (model_at first.now) (model_at second.now)) 0 out.old out.new result }
{
    let actions = two_models::larger(m.actions, n.actions);
    let labels = writer::head(
        out,
        m.states + n.states,
        actions,
        m.transitions + n.transitions,
    );
    let records = write_labels(first, m.states, second, n.states, out, labels);
    let other = SoundModel {
        file: second,
        states: n.states,
        transitions: n.transitions,
        places,
    };
    write_records(first, 8 + m.states, other, m.states, out, records)
}

// The joined file, written if there is room for it, and its length.
pub fn write_file(
    first: &[u8],
    m: Model,
    second: &[u8],
    n: Model,
    places: &Places,
    out: &mut [u8],
) -> usize
    requires { CanJoin first.now m second.now n places.now }
    ensures { FileWritten (joined_file (model_at first.now) (model_at second.now)) out.old out.new result }
{
    let size = first.len() + second.len() - 8;
    if size <= out.len() {
        write_joined(first, m, second, n, places, out);
    }
    size
}
