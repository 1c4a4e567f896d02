// A transition record of the model file of document 01, judged in the order of the table 'Refused, and where'.
#![tactic(auto)]

ghost use Rattle.std.specs.Prelude.{◌+◌, ◌≤◌, ◌<◌, length, ◌≡◌};
ghost use Rattle.rules.specs.definitions.Limits.{limits};
ghost use Rattle.rules.specs.definitions.Reading.{fixed_fault_at, after_transition};
ghost use Rattle.fault.specs.Faults.{fault_in};
ghost use Rattle.transition_record.specs.Fields.{FieldsAt, TransitionRead};

use fault::{Fault, Refusal};
use field::Cursor;
use limits::{ENTRIES, Terms};

const TRANSITION_MARK: usize = 0x5452;

// The fixed fields of a transition, and where its entries begin.
#[derive(Clone, Copy)]
pub struct Fields {
    pub source: usize,
    pub action: usize,
    pub denominator: usize,
    pub count: usize,
    pub entries: Cursor,
}

// The fixed fields of the transition record at a place.
pub fn fields_at(s: &[u8], at: usize) -> Fields
    requires { at + 7 ≤ length s.now }
    ensures { FieldsAt s.now at result }
{
    let source = Cursor::new(at + 2).byte(s);
    let action = source.next.byte(s);
    let denominator = action.next.pair(s);
    let count = denominator.next.byte(s);
    let entries = count.next;
    Fields {
        source: source.value,
        action: action.value,
        denominator: denominator.value,
        count: count.value,
        entries,
    }
}

// 5 and 8 of the record at a place, of n states and m actions, after the last source and so many entries. Each field is judged before
// the next is read: that compiles to one branch a test.
fn fixed_fault(
    s: &[u8],
    n: usize,
    m: usize,
    last: usize,
    entries: usize,
    at: usize,
) -> Result<(), Fault>
    requires { (at + 7 ≤ length s.now) × (entries ≤ limits.entries) }
    ensures { fault_in result ≡ fixed_fault_at limits s.now n m last entries at }
{
    let first = Cursor::new(at + 2).byte(s);
    let source = first.value;
    if source < last {
        return Err(Refusal::TransitionFields.fault());
    }
    if n <= source {
        return Err(Refusal::TransitionFields.fault());
    }
    let second = first.next.byte(s);
    let action = second.value;
    if m <= action {
        return Err(Refusal::TransitionFields.fault());
    }
    let third = second.next.pair(s);
    let denominator = third.value;
    if denominator == 0 {
        return Err(Refusal::TransitionFields.fault());
    }
    let fourth = third.next.byte(s);
    let count = fourth.value;
    if count == 0 {
        return Err(Refusal::TransitionFields.fault());
    }
    if n < count {
        return Err(Refusal::TransitionFields.fault());
    }
    if ENTRIES < entries + count {
        return Err(Refusal::EntryCount.fault());
    }
    Ok(())
}

// What is handed up of a transition record: its source, how many entries it has, and the cursor past it.
#[derive(Clone, Copy)]
pub struct Transition {
    pub source: usize,
    pub count: usize,
    pub next: Cursor,
}

// The transition record at a place, of n states and m actions, after the last source and so many entries, in these terms.
pub fn transition_at(
    s: &[u8],
    terms: Terms,
    n: usize,
    m: usize,
    last: usize,
    entries: usize,
    place: Cursor,
) -> Result<Transition, Fault>
    requires { (place.at ≤ length s.now) × (entries ≤ limits.entries) }
    ensures { TransitionRead terms s.now n m last entries place.at result }
{
    let at = place.at;
    record::open_model(s, at, TRANSITION_MARK, 7)?;
    fault::at_place(fixed_fault(s, n, m, last, entries, at), at)?;
    let t = fields_at(s, at);
    let start = t.entries.at;
    if s.len() - start < 3 * t.count {
        return Err(Refusal::ModelEnds.fault().at(at));
    }
    let judged = transition_entries::entries_at(s, n, t.denominator, t.count, t.entries);
    let spelled = transition_terms::terms_fault(s, terms, t.count, t.entries);
    let next = fault::at_place(judged, at)?;
    fault::at_place(spelled, at)?;
    Ok(Transition {
        source: t.source,
        count: t.count,
        next,
    })
}

// The place after the record at a place.
pub fn after_transition(s: &[u8], at: usize) -> usize
    requires { after_transition s.now at ≤ length s.now }
    ensures { result ≡ after_transition s.now at }
{
    let count = Cursor::new(at + 6).byte(s).value;
    at + 7 + 3 * count
}
