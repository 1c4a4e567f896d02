// Two models read in the order named: the first is file 1, the second file 3; and the larger of two numbers.
#![tactic(auto)]

ghost use Rattle.std.specs.Prelude.{◌≡◌, length};
ghost use Rattle.bisimulation.specs.definitions.Joined as joined;
ghost use Rattle.limits.specs.Sizes as sizes;
ghost use Rattle.two_models.specs.TwoModels.{SoundFile, TwoReadIs};

use answer::Answer;
use limits::Terms;
use model::{Model, Places};

// The second model, after a sound first one.
fn read_second(
    first: &[u8],
    m: Model,
    second: &[u8],
    places: &mut Places,
) -> Result<(Model, Model), Answer>
    requires { SoundFile first.now m × (length places.old ≡ sizes.places) }
    ensures { TwoReadIs first.now second.now places.new result }
{
    match model::scan_file(second, Terms::Lowest, places) {
        Ok(n) => Ok((m, n)),
        Err(wrong) => Err(Answer::refused_in(wrong, 3, second.len())),
    }
}

// What the heads of two sound models say, or the answer of a refusal. The table has the places of the second's transitions then.
pub fn read_two(first: &[u8], second: &[u8], places: &mut Places) -> Result<(Model, Model), Answer>
    requires { length places.old ≡ sizes.places }
    ensures { TwoReadIs first.now second.now places.new result }
{
    match model::scan_file(first, Terms::Lowest, places) {
        Ok(m) => read_second(first, m, second, places),
        Err(wrong) => Err(Answer::refused_in(wrong, 1, first.len())),
    }
}

// The larger of two numbers, as of their action counts.
pub fn larger(a: usize, b: usize) -> usize
    ensures { result ≡ joined.larger a b }
{
    a.max(b)
}
