// The file of a cost model (document 02, K6): its model's records, and behind them the cost record.
#![tactic(auto)]

ghost use Rattle.std.specs.Prelude.{◌≡◌, length, ◌≤◌};
ghost use Rattle.rules.specs.definitions.Limits.{limits};
ghost use Rattle.rules.specs.definitions.Reading.{head_fault, sound, refuse_bytes_left};
ghost use Rattle.limits.specs.Sizes as sizes;
ghost use Rattle.limits.specs.TermsBy.{limits_by};
ghost use Rattle.cost_files.specs.definitions.CostReading.{scan_cost_record, scan_cost_model};
ghost use Rattle.model.specs.Scanned.{scan_of, Scans};

use fault::{Fault, Refusal};
use field::Cursor;
use limits::{COST, Terms};
use model::{Model, Places};

const MARK: usize = 0x434F;

// Refusals 1, 2 and 29 of the cost record that begins where the transitions end, and 9.
fn scan_costs(s: &[u8], m: Model) -> Result<Model, Fault>
    requires { (m.end ≤ length s.now) × (m.transitions ≤ limits.transitions) }
    ensures { scan_of result ≡ refuse_bytes_left s.now (scan_cost_record s.now (sound m.states m.actions m.transitions m.end)) }
{
    let count = m.transitions;
    record::open_model(s, m.end, MARK, 2 + count)?;
    let mut place = Cursor::new(m.end + 2);
    for _ in 0..count {
        let cost = place.byte(s);
        if COST < cost.value {
            return Err(Refusal::Cost.fault().at(place.at));
        }
        place = cost.next;
    }
    model::whole(
        s,
        Model {
            states: m.states,
            actions: m.actions,
            transitions: count,
            end: place.at,
        },
    )
}

// Refusals 1 to 9, 34 and 29 from the labels on, or a sound model with costs that fills the file.
pub fn scan_cost_model(s: &[u8], terms: Terms, places: &mut Places) -> Result<Model, Fault>
    requires { (length places.old ≡ sizes.places) × ((head_fault limits s.now).number ≡ 0) }
    ensures { Scans s.now (scan_cost_model (limits_by terms) s.now) result places.new }
{
    let m = model::scan_model(s, terms, places)?;
    scan_costs(s, m)
}
