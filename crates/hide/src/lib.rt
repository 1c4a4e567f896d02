// A model with the external actions of a set made internal.
#![tactic(auto)]

ghost use Rattle.std.specs.Prelude.{◌≤◌, ◌<◌, ◌≡◌, ◌++◌, length, drop};
ghost use Rattle.rules.specs.definitions.Model.{model_bytes};
ghost use Rattle.rules.specs.definitions.Reading.{model_at};
ghost use Rattle.composition.specs.definitions.Hiding.{hidden_file};
ghost use Rattle.bisimulation.specs.definitions.Hidden.{hidden_action};
ghost use Rattle.answer.specs.Answered.{FileWritten};
ghost use Rattle.hide.specs.Members.{HoldsMembers, chosen_in};
ghost use Rattle.hide.specs.Hide.{HidesSound, HideAnswered};

use answer::Answer;
use fault::Refusal;
use limits::Terms;
use sound_model::SoundModel;

// Whether each byte is a member of a set.
type Members = [bool; 256];

fn members_of(set: &[u8]) -> Members
    ensures { HoldsMembers set.now result }
{
    let mut members = [false; 256];
    for byte in set {
        members[*byte as usize] = true;
    }
    members
}

fn hidden_action(members: &Members, action: u8) -> u8
    requires { action < length members.now }
    ensures { result ≡ hidden_action (chosen_in members.now) action }
{
    if members[action as usize] { 0 } else { action }
}

// The file as it stands, and then each of its actions.
fn write_hidden(model: SoundModel, set: &[u8], out: &mut [u8])
    requires { (model.file.now ≡ model_bytes (model_at model.file.now)) × (length model.file.now ≤ length out.old) }
    ensures { out.new ≡ hidden_file set.now (model_at model.entry.file.now) ++ drop (length model.entry.file.now) out.old }
{
    let members = members_of(set);
    writer::part(out, 0, model.file);
    for r in 0..model.transitions {
        let at = model.places[r] + 3;
        out[at] = hidden_action(&members, model.file[at]);
    }
}

// The file with the members hidden, written if there is room for it, and its length, which is the model's.
fn write_file(model: SoundModel, set: &[u8], out: &mut [u8]) -> usize
    requires { model.file.now ≡ model_bytes (model_at model.file.now) }
    ensures { FileWritten (hidden_file set.now (model_at model.entry.file.now)) out.old out.new result }
{
    let size = model.file.len();
    if size <= out.len() {
        write_hidden(model, set, out);
    }
    size
}

// A sound model: 38, or its file.
fn hide_sound(model: SoundModel, set: &[u8], out: &mut [u8]) -> Answer
    requires { model.file.now ≡ model_bytes (model_at model.file.now) }
    ensures { HidesSound model.entry.file.now set.now out.old out.new result }
{
    let room = out.len();
    let size = write_file(model, set, out);
    Answer::of_file(Refusal::ComposedRoom, size, room)
}

// What the call that hides answers.
pub fn hide_answer(s: &[u8], set: &[u8], out: &mut [u8]) -> Answer
    ensures { HideAnswered s.now set.now out.old out.new result }
{
    let mut places = model::no_places();
    match model::scan_file(s, Terms::Lowest, &mut places) {
        Ok(m) => {
            let found = SoundModel {
                file: s,
                states: m.states,
                transitions: m.transitions,
                places: &places,
            };
            hide_sound(found, set, out)
        }
        Err(wrong) => Answer::refused_in(wrong, 1, s.len()),
    }
}
