// A table of signed numbers, one a state before and one after a flow's move, with the count of those that are not zero.
#![tactic(auto)]

ghost use Rattle.std.specs.Prelude.{◌+◌, ◌<◌, ◌^◌, ◌≡◌, pos, neg_ℤ};
ghost use Rattle.transition.specs.Known.{automaton_in, entries_of};
ghost use Rattle.remainders.specs.Remainders.{AllZero};
ghost use Rattle.remainders.specs.Nonzero.{is_nonzero, CanChange, Became};
ghost use Rattle.remainders.specs.Moving.{added, arrived, departed, CanAdd, CanMove};

use limits::REMAINDERS;
use model::Places;

// Left less right of the equations at each state: those before the move, or of an internal one, at the state's own number, and
// those after the move from STATES on. All are zero between flows.
pub type Remainders = [i64; REMAINDERS];

// Remainders that are all zero.
pub fn no_remainders() -> Remainders
    ensures { AllZero result }
{
    [0; REMAINDERS]
}

// 1 where the number is not zero, else 0.
fn is_nonzero(number: i64) -> usize
    ensures { result ≡ is_nonzero number }
{
    usize::from(number != 0)
}

// How many remainders are not zero, after one of them changed. A sum takes fewer instructions than cases.
fn nonzero_after(nonzero: usize, old: i64, new: i64) -> usize
    requires { CanChange nonzero old }
    ensures { result + is_nonzero old ≡ nonzero + is_nonzero new }
{
    nonzero + is_nonzero(new) - is_nonzero(old)
}

// A remainder with one more term, weight times factor; answers how many remainders are not zero then.
fn add(remainders: &mut Remainders, i: usize, weight: usize, factor: i64, nonzero: usize) -> usize
    requires { CanAdd remainders.old i weight factor nonzero }
    ensures { Became (added remainders.old i weight factor) remainders.new result }
{
    let old = remainders[i];
    let new = signed::with_term(old, weight, factor);
    remainders[i] = new;
    nonzero_after(nonzero, old, new)
}

// A remainder with one more term, weight times amount.
pub fn give(
    remainders: &mut Remainders,
    i: usize,
    weight: usize,
    amount: usize,
    nonzero: usize,
) -> usize
    requires { CanAdd remainders.old i weight (pos amount) nonzero × (amount < 2 ^ 32) }
    ensures { Became (added remainders.old i weight (pos amount)) remainders.new result }
{
    add(remainders, i, weight, amount as i64, nonzero)
}

// A remainder with that term taken away.
pub fn take(
    remainders: &mut Remainders,
    i: usize,
    weight: usize,
    amount: usize,
    nonzero: usize,
) -> usize
    requires { CanAdd remainders.old i weight (neg_ℤ (pos amount)) nonzero × (amount < 2 ^ 32) }
    ensures { Became (added remainders.old i weight (neg_ℤ (pos amount))) remainders.new result }
{
    add(remainders, i, weight, signed::minus(amount), nonzero)
}

// The weights of the transition r, times a factor, at the remainders of its targets, which begin at `first`.
pub fn arrive(
    s: &[u8],
    places: &Places,
    r: usize,
    factor: i64,
    first: usize,
    remainders: &mut Remainders,
    nonzero: usize,
) -> usize
    requires { CanMove s.now places.now r factor first remainders.old nonzero }
    ensures { Became (arrived (entries_of s.now r) factor first remainders.old) remainders.new result }
{
    let t = transition::fields_of(s, places, r);
    let mut now_nonzero = nonzero;
    for entry in transition::entries(s, t.entries, t.count) {
        now_nonzero = add(
            remainders,
            first + entry.state,
            entry.weight,
            factor,
            now_nonzero,
        );
    }
    now_nonzero
}

// Its denominator, times a factor, at the remainder of its source.
pub fn leave(
    s: &[u8],
    places: &Places,
    r: usize,
    factor: i64,
    first: usize,
    remainders: &mut Remainders,
    nonzero: usize,
) -> usize
    requires { CanMove s.now places.now r factor first remainders.old nonzero }
    ensures { Became (departed (automaton_in s.now) r factor first remainders.old) remainders.new result }
{
    let t = transition::fields_of(s, places, r);
    add(remainders, first + t.source, t.denominator, factor, nonzero)
}
