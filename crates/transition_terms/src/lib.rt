// The terms that a transition is written in (document 02, K10): the greatest common divisor of its weights, and 34.
#![tactic(auto)]

ghost use Rattle.std.specs.Prelude.{◌+◌, ◌*◌, ◌≤◌, length, ◌≡◌};
ghost use Rattle.numbers.specs.definitions.Divisor.{divisor};
ghost use Rattle.rules.specs.definitions.Limits.{lowest_terms};
ghost use Rattle.limits.specs.TermsBy.{terms_of};
ghost use Rattle.transition_terms.specs.Divisors.{divisor_at, TermsJudged};

use fault::{Fault, Refusal};
use field::Cursor;
use limits::Terms;

// The divisor of the weights so far, 0 before the first, and one more. No division for the first, nor for a weight of 1.
pub fn with_weight(shared: usize, weight: usize) -> usize
    ensures { result ≡ divisor shared weight }
{
    if weight == 1 {
        return 1;
    }
    if shared == 0 {
        return weight;
    }
    greatest_divisor::divisor(shared, weight)
}

// The greatest common divisor of the weights of so many entries from a place on. Most are known from a weight of 1 or from the first two.
pub fn divisor_of(s: &[u8], count: usize, first: Cursor) -> usize
    requires { first.at + 3 * count ≤ length s.now }
    ensures { result ≡ divisor_at s.now count first.at }
{
    let mut place = first;
    let mut shared = 0;
    for _ in 0..count {
        let weight = Cursor::new(place.at + 1).pair(s);
        shared = with_weight(shared, weight.value);
        if shared == 1 {
            return shared;
        }
        place = weight.next;
    }
    shared
}

// 34 of a transition with these entries, where terms are to be lowest.
fn lowest_fault(s: &[u8], count: usize, first: Cursor) -> Result<(), Fault>
    requires { first.at + 3 * count ≤ length s.now }
    ensures { TermsJudged lowest_terms s.now count first.at result }
{
    if divisor_of(s, count, first) != 1 {
        return Err(Refusal::Terms.fault());
    }
    Ok(())
}

// 34 by the terms that are asked for.
pub fn terms_fault(s: &[u8], terms: Terms, count: usize, first: Cursor) -> Result<(), Fault>
    requires { first.at + 3 * count ≤ length s.now }
    ensures { TermsJudged (terms_of terms) s.now count first.at result }
{
    match terms {
        Terms::Any => Ok(()),
        Terms::Lowest => lowest_fault(s, count, first),
    }
}
