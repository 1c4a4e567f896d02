// The greatest common divisor of each transition's weights, in a table.
#![tactic(auto)]

ghost use Rattle.divisors.specs.Table.{HoldsDivisors};

use limits::TRANSITIONS;
use sound_model::SoundModel;

pub type Divisors = [usize; TRANSITIONS];

pub fn divisors_of(model: SoundModel) -> Divisors
    ensures { HoldsDivisors model.entry.file.now model.entry.transitions result }
{
    let mut divisors = [0; TRANSITIONS];
    for r in 0..model.transitions {
        let t = model.fields(r);
        divisors[r] = transition_terms::divisor_of(model.file, t.count, t.entries);
    }
    divisors
}
