// Two models written as one.
#![tactic(auto)]

ghost use Rattle.std.specs.Prelude.{◌≡◌};
ghost use Rattle.two_models.specs.TwoModels.{BothSound};
ghost use Rattle.join.specs.Join.{JoinAnswered, JoinsSound, passes_sizes};

use answer::Answer;
use fault::Refusal;
use limits::{ENTRIES, STATES, TRANSITIONS};
use model::{Model, Places};

// Whether so many states, transitions and bytes of entries pass a limit.
fn passes_limit(states: usize, transitions: usize, entry_bytes: usize) -> bool
    ensures { result ≡ passes_sizes states transitions entry_bytes }
{
    if STATES < states {
        return true;
    }
    if TRANSITIONS < transitions {
        return true;
    }
    if 3 * ENTRIES < entry_bytes {
        return true;
    }
    false
}

// Two sound models: 25, 26, or their joined file.
fn join_sound(
    first: &[u8],
    m: Model,
    second: &[u8],
    n: Model,
    places: &Places,
    out: &mut [u8],
) -> Answer
    requires { BothSound first.now m second.now n places.now }
    ensures { JoinsSound first.now second.now out.old out.new result }
{
    let states = m.states + n.states;
    let transitions = m.transitions + n.transitions;
    let records = first.len() + second.len() - 16 - states;
    if passes_limit(states, transitions, records - 7 * transitions) {
        return Answer::refused(Refusal::JoinedLimits);
    }
    let room = out.len();
    let size = joined_file::write_file(first, m, second, n, places, out);
    Answer::of_file(Refusal::JoinedRoom, size, room)
}

// What the call that joins answers.
pub fn join_answer(first: &[u8], second: &[u8], out: &mut [u8]) -> Answer
    ensures { JoinAnswered first.now second.now out.old out.new result }
{
    let mut places = model::no_places();
    match two_models::read_two(first, second, &mut places) {
        Ok((m, n)) => join_sound(first, m, second, n, &places, out),
        Err(refused) => refused,
    }
}
