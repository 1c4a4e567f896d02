// A sound model as those who judge a certificate of it have it: its file, its counts, and the places of its transitions.
#![tactic(auto)]

ghost use Rattle.std.specs.Prelude.{◌<◌};
ghost use Rattle.transition.specs.Known.{Known, FieldsOf};
ghost use Rattle.sound_model.specs.KnownProps.{known-prop};

use model::Places;
use transition_record::Fields;

#[derive(Clone, Copy)]
pub struct SoundModel<'a> {
    pub file: &'a [u8],
    pub states: usize,
    pub transitions: usize,
    pub places: &'a Places,
    pub ghost known: { Known file.now states transitions places.now } by { known-prop file.now states transitions places.now },
}

impl<'a> SoundModel<'a> {
    // The fixed fields of the transition r, and where its entries begin.
    pub fn fields(self, r: usize) -> Fields
        requires { r < self.transitions }
        ensures { FieldsOf self.entry.file.now r result }
    {
        transition::fields_of(self.file, self.places, r)
    }
}
