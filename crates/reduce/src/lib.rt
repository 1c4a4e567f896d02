// The call that reduces: a pair judged, and its model written with each block merged into one state.
#![tactic(auto)]

ghost use Rattle.std.specs.Prelude.{[], ◌∷◌};
ghost use Rattle.rules.specs.definitions.Reading.{model_at};
ghost use Rattle.rules.specs.definitions.Answers.{files_outcome};
ghost use Rattle.rules.proofs.argument.NumberedBlocks.{NumberedBlocks};
ghost use Rattle.quotient.specs.definitions.Quotient.{merged_file};
ghost use Rattle.transition.specs.Known.{KnownModel};
ghost use Rattle.answer.specs.Answered.{Gives};
ghost use Rattle.reduce.specs.Reduce.{ReduceAnswered};

use answer::Answer;
use fault::Refusal;
use limits::{STATES, Terms};
use rule_kind::Kind;
use sound_model::SoundModel;

// The merged model of accepted blocks, written if there is room for it.
fn write_merged(model: &[u8], n: usize, count: usize, blocks: &[u8], out: &mut [u8]) -> Answer
    requires { KnownModel model.now n count × NumberedBlocks (model_at model.now) blocks.now }
    ensures { Gives (files_outcome 23 (merged_file (model_at model.now) blocks.now ∷ []) (out.old ∷ [])) (out.new ∷ []) result }
{
    let places = transition::places_of(model, n, count);
    let sound = SoundModel {
        file: model,
        states: n,
        transitions: count,
        places: &places,
    };
    let room = out.len();
    let size = merged_model::write_file(sound, blocks, out);
    Answer::of_file(Refusal::MergedRoom, size, room)
}

// What the call that reduces answers. It lends no block buffer, so the blocks have the room of every model.
pub fn reduce_answer(model: &[u8], certificate: &[u8], out: &mut [u8]) -> Answer
    ensures { ReduceAnswered model.now certificate.now out.old out.new result }
{
    if let Err(refused) = judgement::head_answer(model) {
        return refused;
    }
    match judgement::judge_files(Kind::Plain, Terms::Lowest, model, certificate, STATES) {
        Ok(found) => {
            let at = found.blocks;
            let blocks = &certificate[at..at + found.states];
            write_merged(model, found.states, found.transitions, blocks, out)
        }
        Err(refused) => refused,
    }
}
