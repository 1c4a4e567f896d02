// The run of the model's bytes that holds the transitions of a state.
#![tactic(auto)]

ghost use Rattle.std.specs.Prelude.{◌-◌, ◌≤◌, ◌<◌, ◌≡◌};
ghost use Rattle.rules.specs.definitions.Limits.{limits, current};
ghost use Rattle.rules.specs.definitions.Reading.{first_not_below};
ghost use Rattle.rules.specs.definitions.Answers.{run_answer, fetch_answer};
ghost use Rattle.answer.specs.Answered.{Says};
ghost use Rattle.fetch.specs.Fetched.{IsRun, answer_of, FetchAnswered, FetchHandedBack};

use answer::Answer;
use fault::{Fault, Refusal};
use limits::Terms;
use sound_model::SoundModel;

// Of the transitions from r on, the first whose source is not below a state; their count where there is none.
fn first_not_below(model: SoundModel, state: usize, r: usize) -> usize
    requires { r ≤ model.transitions }
    ensures { result ≡ first_not_below model.entry.file.now state (model.entry.transitions - r) r }
{
    let count = model.transitions;
    for at in r..count {
        let source = model.fields(at).source;
        if state <= source {
            return at;
        }
    }
    count
}

#[derive(Clone, Copy)]
struct Run {
    start: usize,
    end: usize,
}

fn run_of(model: SoundModel, state: usize) -> Run
    requires { state < limits.states }
    ensures { IsRun model.entry.file.now state result }
{
    let first = first_not_below(model, state, 0);
    let past = first_not_below(model, state + 1, first);
    Run {
        start: model.places[first],
        end: model.places[past],
    }
}

// The run of the model's bytes that holds the transitions of a state, if the model has the state.
fn fetch_run(s: &[u8], state: usize) -> Result<Option<Run>, Fault>
    ensures { answer_of s.now result ≡ fetch_answer current s.now state }
{
    model_head::head_fault(s)?;
    let mut places = model::no_places();
    let m = model::scan_whole(s, Terms::Lowest, &mut places)?;
    let n = m.states;
    if n <= state {
        return Ok(None);
    }
    let found = SoundModel {
        file: s,
        states: n,
        transitions: m.transitions,
        places: &places,
    };
    let run = run_of(found, state);
    Ok(Some(run))
}

fn run_from(run: Run) -> Answer
    ensures { Says (run_answer run.start run.end) 0 result }
{
    if run.start < run.end {
        return Answer {
            number: 0,
            file: 0,
            place: 0,
            stretch_start: run.start,
            stretch_length: run.end - run.start,
            written: 0,
            state: 0,
            remainder: 0,
        };
    }
    Answer::written(0)
}

// What a fetch answers.
pub fn fetch_answer(model: &[u8], state: u32) -> Answer
    ensures { FetchAnswered model.now state result }
{
    match fetch_run(model, state as usize) {
        Ok(Some(run)) => run_from(run),
        Ok(None) => Answer::refused(Refusal::NoState),
        Err(wrong) => Answer::refused_in(wrong, 1, model.len()),
    }
}

// The same, with the run or stretch as a part of the model, and the numbers beside it. The model stands for file 2 too, which no answer names.
pub fn fetch<'a>(
    model: &'a [u8],
    fetched: u32,
    number: &mut u32,
    file: &mut u32,
    place: &mut usize,
    state: &mut u32,
    remainder: &mut i64,
) -> &'a [u8]
    ensures { FetchHandedBack model.now model.entry.ref_ptr fetched number.new file.new place.new state.new remainder.new result.now result.ref_ptr }
{
    let answer = fetch_answer(model, fetched);
    answer::hand_back(model, model, answer, number, file, place, state, remainder)
}
