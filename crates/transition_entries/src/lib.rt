// The entries of a transition record, judged in the order of the table 'Refused, and where'.
#![tactic(auto)]

ghost use Rattle.std.specs.Prelude.{◌+◌, ◌*◌, ◌≤◌, ◌<◌, length};
ghost use Rattle.transition_entries.specs.EntriesRead.{EntriesRead};

use fault::{Fault, Refusal};
use field::Cursor;

// 6 and 7 of the entries of a transition, or the cursor past them. States ascend, so it is enough to test after the last entry that its state is below
// n: that refusal is 6 as well.
pub fn entries_at(
    s: &[u8],
    n: usize,
    denominator: usize,
    count: usize,
    first: Cursor,
) -> Result<Cursor, Fault>
    requires { (first.at + 3 * count ≤ length s.now) × (count < 256) }
    ensures { EntriesRead s.now n denominator count first.at result }
{
    let mut place = first;
    let mut lowest = 0;
    let mut total = 0;
    for _ in 0..count {
        let state = place.byte(s);
        let weight = state.next.pair(s);
        let v = state.value;
        let p = weight.value;
        if v < lowest {
            return Err(Refusal::TransitionEntries.fault());
        }
        if p == 0 {
            return Err(Refusal::TransitionEntries.fault());
        }
        lowest = v + 1;
        total += p;
        place = weight.next;
    }
    if n < lowest {
        return Err(Refusal::TransitionEntries.fault());
    }
    if total != denominator {
        return Err(Refusal::WeightSum.fault());
    }
    Ok(place)
}
