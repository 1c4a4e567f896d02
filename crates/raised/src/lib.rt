// The transition records of a sound model with its states raised, appended to a lent buffer.
#![tactic(auto)]

ghost use Rattle.rules.specs.definitions.Model.{transition_bytes};
ghost use Rattle.rules.specs.definitions.Reading.{transition_at, model_at, place_of};
ghost use Rattle.joined.specs.definitions.Joined.{raised_transition};
ghost use Rattle.writer.specs.Appends.{Appends};
ghost use Rattle.raised.specs.Raised.{raised_transitions, CanRaiseTransition, CanRaise};

use sound_model::SoundModel;

// The record of the transition r, with k added to its source and its targets. Hands back the place after it.
fn write_transition(model: SoundModel, r: usize, k: usize, out: &mut [u8], at: usize) -> usize
    requires { CanRaiseTransition model.file.now model.transitions r k out.old at }
    ensures { Appends (transition_bytes (raised_transition k (transition_at model.entry.file.now (place_of model.entry.file.now r)))) at out.old out.new result }
{
    let t = model.fields(r);
    placed_entries::write_record(model.file, t, k + t.source, 1, k, out, at)
}

// All records of the model, the same way.
pub fn write_transitions(model: SoundModel, k: usize, out: &mut [u8], at: usize) -> usize
    requires { CanRaise model.file.now k out.old at }
    ensures { Appends (raised_transitions k (model_at model.entry.file.now).transitions) at out.old out.new result }
{
    let mut next = at;
    for r in 0..model.transitions {
        next = write_transition(model, r, k, out, next);
    }
    next
}
