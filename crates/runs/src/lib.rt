// The run of transitions that leave a state, and the states that it asks.
#![tactic(auto)]

ghost use Rattle.std.specs.Prelude.{◌≤◌, ◌<◌};
ghost use Rattle.rules.specs.definitions.Limits.{limits};
ghost use Rattle.rules.specs.definitions.Reading.{states_of};
ghost use Rattle.transition.specs.Known.{automaton_in, Known};
ghost use Rattle.runs.specs.Runs.{IsPast, IsDefender, IsFirstDefender};

use limits::STATES;
use model::Places;
use pairs::Rows;

// The first of the transitions from r on that does not leave a state.
pub fn run_past(s: &[u8], count: usize, places: &Places, state: usize, r: usize) -> usize
    requires { Known s.now (states_of s.now) count places.now × (r ≤ count) }
    ensures { IsPast (automaton_in s.now) count state r result }
{
    for past in r..count {
        let source = transition::fields_of(s, places, past).source;
        if source != state {
            return past;
        }
    }
    count
}

// The first state from t on that is related to a state and is another one; no number below STATES where there is none.
pub fn next_defender(rows: &Rows, state: usize, t: usize) -> usize
    requires { (state < limits.states) × (t ≤ limits.states) }
    ensures { IsDefender rows.now state t result }
{
    let next = pairs::next_related(rows, state, t).unwrap_or(STATES);
    if next != state {
        return next;
    }
    pairs::next_related(rows, state, next + 1).unwrap_or(STATES)
}

// The first state that the run from `first` to `past` asks; n where the run is empty.
pub fn first_defender(rows: &Rows, n: usize, state: usize, first: usize, past: usize) -> usize
    requires { state < limits.states }
    ensures { IsFirstDefender rows.now n state first past result }
{
    if first == past {
        return n;
    }
    next_defender(rows, state, 0)
}
