// Two models composed: working side by side.
#![tactic(auto)]

ghost use Rattle.std.specs.Prelude.{◌≡◌};
ghost use Rattle.rules.specs.definitions.Reading.{model_at};
ghost use Rattle.answer.specs.Answered.{FileWritten};
ghost use Rattle.composition.specs.definitions.Composition.{composed_file};
ghost use Rattle.two_models.specs.TwoModels.{BothSound};
ghost use Rattle.compose.specs.Compose.{ComposeAnswered, ComposesSound, passes_states, passes_moves, StatesWithin, CanWriteFile};

use answer::Answer;
use composed_size::{Side, Sizes};
use fault::Refusal;
use limits::{ENTRIES, LABEL, STATES, TRANSITIONS};
use model::{Model, Places};

// Whether a limit is passed by so many states, or by a highest label.
fn passes_states(states: usize, label: usize) -> bool
    ensures { result ≡ passes_states states label }
{
    if STATES < states {
        return true;
    }
    if LABEL < label {
        return true;
    }
    false
}

// Whether one is passed by so many transitions, entries, and denominators that are more than their field holds.
fn passes_moves(transitions: usize, entries: usize, long: usize) -> bool
    ensures { result ≡ passes_moves transitions entries long }
{
    if TRANSITIONS < transitions {
        return true;
    }
    if ENTRIES < entries {
        return true;
    }
    if 0 < long {
        return true;
    }
    false
}

// The file of the composition, written if there is room for it, and its length.
fn write_file(left: Side, right: Side, factor: usize, sizes: Sizes, out: &mut [u8]) -> usize
    requires { CanWriteFile left right factor sizes }
    ensures { FileWritten (composed_file (model_at left.entry.file.now) (model_at right.entry.file.now)) out.old out.new result }
{
    let states = left.model.states * right.model.states;
    let size = 8 + states + 7 * sizes.transitions + 3 * sizes.entries;
    if size <= out.len() {
        composed_file::write_composed(left, right, factor, sizes.transitions, out);
    }
    size
}

// Two sound models whose states and labels pass no limit in their composition: 37, 38, or its file.
fn compose_moves(
    left: &[u8],
    m: Model,
    right: &[u8],
    k: Model,
    right_places: &Places,
    factor: usize,
    out: &mut [u8],
) -> Answer
    requires { StatesWithin left.now m right.now k right_places.now factor }
    ensures { ComposesSound left.now right.now out.old out.new result }
{
    let left_places = transition::places_of(left, m.states, m.transitions);
    let first = Side {
        file: left,
        model: m,
        places: &left_places,
    };
    let second = Side {
        file: right,
        model: k,
        places: right_places,
    };
    let sizes = composed_size::count_moves(first, second);
    if passes_moves(sizes.transitions, sizes.entries, sizes.long) {
        return Answer::refused(Refusal::ComposedLimits);
    }
    let room = out.len();
    let size = write_file(first, second, factor, sizes, out);
    Answer::of_file(Refusal::ComposedRoom, size, room)
}

// Two sound models. Where so many states or labels pass a limit, nothing is counted.
fn compose_sound(
    left: &[u8],
    m: Model,
    right: &[u8],
    k: Model,
    right_places: &Places,
    out: &mut [u8],
) -> Answer
    requires { BothSound left.now m right.now k right_places.now }
    ensures { ComposesSound left.now right.now out.old out.new result }
{
    let own = composed_size::highest_label(left, m.states);
    let highest = composed_size::highest_label(right, k.states);
    if passes_states(m.states * k.states, own * (highest + 1) + highest) {
        return Answer::refused(Refusal::ComposedLimits);
    }
    compose_moves(left, m, right, k, right_places, highest + 1, out)
}

// What the call that composes answers.
pub fn compose_answer(left: &[u8], right: &[u8], out: &mut [u8]) -> Answer
    ensures { ComposeAnswered left.now right.now out.old out.new result }
{
    let mut places = model::no_places();
    match two_models::read_two(left, right, &mut places) {
        Ok((m, k)) => compose_sound(left, m, right, k, &places, out),
        Err(refused) => refused,
    }
}
