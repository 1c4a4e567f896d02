// The model file of document 01: its records in their order, and the places of its transitions.
#![tactic(auto)]

ghost use Rattle.std.specs.Prelude.{◌+◌, ◌≤◌, length, ◌≡◌};
ghost use Rattle.rules.specs.definitions.Limits.{limits};
ghost use Rattle.rules.specs.definitions.Reading.{head_fault, states_of, sound, scan_transitions, scan_model, refuse_bytes_left, scan_whole};
ghost use Rattle.limits.specs.Sizes as sizes;
ghost use Rattle.limits.specs.TermsBy.{limits_by};
ghost use Rattle.model.specs.Scanned.{scan_of, Scans};

use fault::{Fault, Refusal};
use field::Cursor;
use limits::{PLACES, Terms};

// The place of each transition in the model file, and after them the place where the records end.
pub type Places = [usize; PLACES];

// What the head of a sound model says, and where its records end.
#[derive(Clone, Copy)]
pub struct Model {
    pub states: usize,
    pub actions: usize,
    pub transitions: usize,
    pub end: usize,
}

fn scan_transitions(
    s: &[u8],
    terms: Terms,
    n: usize,
    m: usize,
    count: usize,
    places: &mut Places,
) -> Result<Model, Fault>
    requires { (n ≡ states_of s.now) × (8 + n ≤ length s.now) × (count ≤ limits.transitions) × (length places.old ≡ sizes.places) }
    ensures { Scans s.now (scan_transitions (limits_by terms) s.now n m count count 0 0 (8 + n)) result places.new }
{
    let mut last = 0;
    let mut entries = 0;
    let mut place = Cursor::new(8 + n);
    for r in 0..count {
        let t = transition_record::transition_at(s, terms, n, m, last, entries, place)?;
        places[r] = place.at;
        last = t.source;
        entries += t.count;
        place = t.next;
    }
    places[count] = place.at;
    Ok(Model {
        states: n,
        actions: m,
        transitions: count,
        end: place.at,
    })
}

// Refusals 1 to 8 and 34 from the labels on, or a sound model with the place of each of its transitions. The caller has judged the head, before
// it makes the table: most of what a refusal at the head costs is a cleared table.
pub fn scan_model(s: &[u8], terms: Terms, places: &mut Places) -> Result<Model, Fault>
    requires { (length places.old ≡ sizes.places) × ((head_fault limits s.now).number ≡ 0) }
    ensures { Scans s.now (scan_model (limits_by terms) s.now) result places.new }
{
    let head = model_head::head_at(s);
    model_head::labels_fault(s, head.states)?;
    scan_transitions(
        s,
        terms,
        head.states,
        head.actions,
        head.transitions,
        places,
    )
}

// 9, or the model that fills its file.
pub fn whole(s: &[u8], m: Model) -> Result<Model, Fault>
    ensures { scan_of result ≡ refuse_bytes_left s.now (sound m.states m.actions m.transitions m.end) }
{
    if m.end < s.len() {
        return Err(Refusal::ModelBytesLeft.fault().at(m.end));
    }
    Ok(m)
}

// Refusals 1 to 9 and 34 from the labels on, or a sound model that fills the file.
pub fn scan_whole(s: &[u8], terms: Terms, places: &mut Places) -> Result<Model, Fault>
    requires { (length places.old ≡ sizes.places) × ((head_fault limits s.now).number ≡ 0) }
    ensures { Scans s.now (scan_whole (limits_by terms) s.now) result places.new }
{
    let m = scan_model(s, terms, places)?;
    whole(s, m)
}

// Refusals 1 to 9 and 34 of a whole file, its head too, where the table is made already.
pub fn scan_file(s: &[u8], terms: Terms, places: &mut Places) -> Result<Model, Fault>
    requires { length places.old ≡ sizes.places }
    ensures { Scans s.now (scan_whole (limits_by terms) s.now) result places.new }
{
    model_head::head_fault(s)?;
    scan_whole(s, terms, places)
}

pub fn no_places() -> Places
    ensures { sizes.places ≡ length result }
{
    [0; PLACES]
}
