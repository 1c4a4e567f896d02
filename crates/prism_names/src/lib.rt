// The names of a PRISM text by first sight, kept as places in it.
#![tactic(auto)]

ghost use Rattle.std.specs.Prelude.{◌+◌, ◌≤◌, ◌<◌, ◌≡◌, length};
ghost use Rattle.rules.specs.definitions.Limits.{limits};
ghost use Rattle.prism.specs.definitions.Reading.{action_of};
ghost use Rattle.prism_names.specs.Names.{between, names_in, KnownNames, NameKept};

use limits::ACTIONS;

// Where a name begins and ends in the text.
#[derive(Clone, Copy)]
pub struct Name {
    pub from: usize,
    pub to: usize,
}

pub type Names = [Name; ACTIONS];

// The action of the name at these places of the text, 0 where it is empty; one more than there are names where it is new.
pub fn action_of(text: &[u8], names: &Names, count: usize, from: usize, to: usize) -> usize
    requires { KnownNames text.now names.now count × (from ≤ to) × (to ≤ length text.now) }
    ensures { result ≡ action_of (names_in text.now names.now count) (between text.now from to) }
{
    if from == to {
        return 0;
    }
    for i in 0..count {
        let name = names[i];
        if text_fields::same(&text[name.from..name.to], &text[from..to]) {
            return i + 1;
        }
    }
    count + 1
}

// How many names there are with the one of this action, which stands at these places of the text and is kept where it is new.
pub fn with_name(names: &mut Names, count: usize, action: usize, from: usize, to: usize) -> usize
    requires { (count < limits.actions) × (action < limits.actions) × (action ≤ count + 1) }
    ensures { NameKept names.old names.new count action from to result }
{
    if action <= count {
        return count;
    }
    names[count] = Name { from, to };
    action
}
