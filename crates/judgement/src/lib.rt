// The one way in of all calls that judge: a pair's model read, and its certificate judged.
#![tactic(auto)]

ghost use Rattle.std.specs.Prelude.{◌≡◌, length};
ghost use Rattle.limits.specs.Sizes as sizes;
ghost use Rattle.rules.specs.definitions.Limits.{limits};
ghost use Rattle.rules.specs.definitions.Reading.{head_fault};
ghost use Rattle.model.specs.Scanned.{Scans};
ghost use Rattle.judgement.specs.Verdicts.{scan_by, ReadsBy, HeadIs, VerdictIs};

use answer::Answer;
use fault::{Fault, Refusal};
use limits::Terms;
use model::{Model, Places};
use rule_kind::Kind;
use sound_model::SoundModel;

// An accepted certificate: the model's counts, and where in the certificate the blocks begin.
#[derive(Clone, Copy)]
pub struct Accepted {
    pub states: usize,
    pub transitions: usize,
    pub blocks: usize,
}

// A sound model's certificate judged, for a buffer with room for so many blocks.
fn judge_sound(
    kind: Kind,
    terms: Terms,
    model: SoundModel,
    certificate: &[u8],
    room: usize,
) -> Result<Accepted, Answer>
    requires { ReadsBy kind terms model.file.now }
    ensures { VerdictIs kind terms model.entry.file.now certificate.now room result }
{
    if room < model.states {
        return Err(Answer::refused(Refusal::BlockRoom));
    }
    match certificate::judge_certificate(kind, model, certificate) {
        Ok(blocks) => Ok(Accepted {
            states: model.states,
            transitions: model.transitions,
            blocks,
        }),
        Err(wrong) => Err(Answer::refused_in(wrong, 2, certificate.len())),
    }
}

// The model read from its labels on, as the kind of its pair asks, in these terms.
fn scan(kind: Kind, terms: Terms, model: &[u8], places: &mut Places) -> Result<Model, Fault>
    requires { (length places.old ≡ sizes.places) × ((head_fault limits model.now).number ≡ 0) }
    ensures { Scans model.now (scan_by kind terms model.now) result places.new }
{
    if rule_kind::has_costs(kind) {
        return cost_model::scan_cost_model(model, terms, places);
    }
    model::scan_whole(model, terms, places)
}

// What a call that judges answers where the head of its model is refused. A call looks at the head first, and goes on with `judge_files`: that has a large
// frame and a cleared table, which a refusal at the head does not pay for.
pub fn head_answer(model: &[u8]) -> Result<(), Answer>
    ensures { HeadIs model.now result }
{
    match model_head::head_fault(model) {
        Ok(()) => Ok(()),
        Err(wrong) => Err(Answer::refused_in(wrong, 1, model.len())),
    }
}

// A pair whose model has a good head: its table of places, the model read, then its certificate judged, for a block buffer with so much room. A
// call that lends none gives the most states that a model has.
pub fn judge_files(
    kind: Kind,
    terms: Terms,
    model: &[u8],
    certificate: &[u8],
    room: usize,
) -> Result<Accepted, Answer>
    requires { (head_fault limits model.now).number ≡ 0 }
    ensures { VerdictIs kind terms model.now certificate.now room result }
{
    let mut places = model::no_places();
    match scan(kind, terms, model, &mut places) {
        Ok(m) => {
            let sound = SoundModel {
                file: model,
                states: m.states,
                transitions: m.transitions,
                places: &places,
            };
            judge_sound(kind, terms, sound, certificate, room)
        }
        Err(wrong) => Err(Answer::refused_in(wrong, 1, model.len())),
    }
}
