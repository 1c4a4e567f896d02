// A transition of a sound model by its number: its fields, and its entries in their order.
#![tactic(auto)]

ghost use Rattle.std.specs.Prelude.{◌+◌, ◌*◌, ◌≤◌, ◌<◌, ◌≡◌, length};
ghost use Rattle.rules.specs.definitions.Reading.{entries_at};
ghost use Rattle.transition.specs.Known.{Known, KnownModel, KnownTransition, FieldsOf};
ghost use Rattle.transition.specs.Entries.{EntryTaken};
ghost use Rattle.transition.specs.EntriesLeft.{entries_left};

mod walk;

use field::Cursor;
use model::Places;
use transition_record::Fields;
pub use walk::Entries;

#[derive(Clone, Copy)]
pub struct Entry {
    pub state: usize,
    pub weight: usize,
    pub next: Cursor,
}

// The fixed fields of the transition r, and where its entries begin.
pub fn fields_of(s: &[u8], places: &Places, r: usize) -> Fields
    requires { KnownTransition s.now places.now r }
    ensures { FieldsOf s.now r result }
{
    transition_record::fields_at(s, places[r])
}

// The places of the transitions of a model that was found sound, and where they end.
pub fn places_of(s: &[u8], n: usize, count: usize) -> Places
    requires { KnownModel s.now n count }
    ensures { Known s.now n count result }
{
    let mut places = model::no_places();
    let mut place = 8 + n;
    for r in 0..count {
        places[r] = place;
        place = transition_record::after_transition(s, place);
    }
    places[count] = place;
    places
}

// The entry at a place.
pub fn entry_at(s: &[u8], place: Cursor) -> Entry
    requires { place.at + 2 < length s.now }
    ensures { EntryTaken s.now place.at result }
{
    let state = place.byte(s);
    let weight = state.next.pair(s);
    let next = weight.next;
    Entry {
        state: state.value,
        weight: weight.value,
        next,
    }
}

// So many entries, from a place on.
pub fn entries(s: &[u8], place: Cursor, count: usize) -> Entries
    requires { place.at + 3 * count ≤ length s.now }
    ensures { entries_left result ≡ entries_at s.now count place.at }
{
    Entries {
        file: s,
        place,
        left: count,
    }
}
