// The price conditions of a refutation.
#![tactic(auto)]

ghost use Rattle.std.specs.Prelude.{◌+◌, ◌*◌, ◌^◌, ◌≤◌, ◌<◌, pos, nat_abs, ◌+ℤ◌, ◌-ℤ◌, ◌*ℤ◌, ◌≡◌};
ghost use Rattle.std.specs.Int.Signed.{mag, le_z};
ghost use Rattle.rules.specs.definitions.Limits.{limits};
ghost use Rattle.rules.specs.definitions.Reading.{states_of};
ghost use Rattle.cost_files.specs.definitions.CostModel.{highest_cost};
ghost use Rattle.cost_files.specs.definitions.CostFile.{cost_condition};
ghost use Rattle.rule_kind.specs.Kinds.{cost_in};
ghost use Rattle.transition.specs.Known.{automaton_in};
ghost use Rattle.prices.specs.Prices.{price_in, SmallPrices};
ghost use Rattle.conditions.specs.Conditions.{fair_twice, fair_to, all_fair, last_off, AllPriced, CostPriced, CostAddable, LastAsked};

use prices::Prices;
use rule_kind::{Condition, Kind};
use sound_model::SoundModel;

// d times the price of v is at least the sum.
fn at_least(d: usize, x: &Prices, v: usize, sum: i64) -> bool
    requires { (d < 65536) × (v < limits.states) × (mag (price_in x.now v) < 2 ^ 31) }
    ensures { result ≡ le_z sum (pos d *ℤ price_in x.now v) }
{
    let price = prices::price_of(x, v);
    sum <= d as i64 * price
}

// d times the price of v less the sum.
fn excess(d: usize, x: &Prices, v: usize, sum: i64) -> i64
    requires { ((d < 65536) × (v < limits.states) × (mag (price_in x.now v) < 2 ^ 31)) × (nat_abs sum ≤ 2 ^ 31 * 65535 * (1 + highest_cost)) }
    ensures { result ≡ pos d *ℤ price_in x.now v -ℤ sum }
{
    let price = prices::price_of(x, v);
    d as i64 * price - sum
}

// A sum over the targets of the transition r, whose denominator is d, with its cost at the price l.
fn with_cost(kind: Kind, model: SoundModel, r: usize, d: usize, l: i64, sum: i64) -> i64
    requires { CostAddable kind model.file.now model.transitions r d l sum }
    ensures { result ≡ sum +ℤ pos (cost_in kind model.entry.file.now r * d) *ℤ l }
{
    let cost = rule_kind::cost_of(kind, model.file, model.transitions, model.places, r);
    if cost == 0 {
        return sum;
    }
    signed::with_term(sum, cost * d, l)
}

// The price condition of the transition r, from the prices x of its source to the prices y of its targets.
fn fair(kind: Kind, model: SoundModel, r: usize, l: i64, x: &Prices, y: &Prices) -> bool
    requires { CostPriced kind model.file.now model.transitions r l × SmallPrices (states_of model.file.now) x.now × SmallPrices (states_of model.file.now) y.now }
    ensures { result ≡ cost_condition (cost_in kind model.entry.file.now) (automaton_in model.entry.file.now) l (price_in x.now) (price_in y.now) r }
{
    let t = model.fields(r);
    let d = t.denominator;
    let sum = prices::sum_of(model.file, t.entries.at, t.count, y);
    at_least(d, x, t.source, with_cost(kind, model, r, d, l, sum))
}

// The conditions of an internal transition, for the prices x alone and for y alone, in one pass over its entries.
fn fair_twice(kind: Kind, model: SoundModel, r: usize, l: i64, x: &Prices, y: &Prices) -> bool
    requires { CostPriced kind model.file.now model.transitions r l × SmallPrices (states_of model.file.now) x.now × SmallPrices (states_of model.file.now) y.now }
    ensures { result ≡ fair_twice (cost_in kind model.entry.file.now) (automaton_in model.entry.file.now) l (price_in x.now) (price_in y.now) r }
{
    let t = model.fields(r);
    let d = t.denominator;
    let sums = prices::sums_of(model.file, t.entries.at, t.count, x, y);
    let first = with_cost(kind, model, r, d, l, sums.first);
    if !at_least(d, x, t.source, first) {
        return false;
    }
    let second = with_cost(kind, model, r, d, l, sums.second);
    at_least(d, y, t.source, second)
}

// What a challenger with the action a asks of the transition r, against t. Where there is no move the prices y are x.
fn fair_to(
    kind: Kind,
    model: SoundModel,
    r: usize,
    a: usize,
    t: usize,
    l: i64,
    x: &Prices,
    y: &Prices,
) -> bool
    requires { CostPriced kind model.file.now model.transitions r l × SmallPrices (states_of model.file.now) x.now × SmallPrices (states_of model.file.now) y.now }
    ensures { result ≡ fair_to (cost_in kind model.entry.file.now) (automaton_in model.entry.file.now) l kind a t (price_in x.now) (price_in y.now) r }
{
    let fields = model.fields(r);
    let condition = rule_kind::condition_of(kind, a, t, fields.source, fields.action);
    // Two tests and no match: the compiler makes a number of three cases first, a tenth more instructions on refutations.
    if let Condition::Across = condition {
        return fair(kind, model, r, l, x, y);
    }
    if let Condition::Within = condition {
        return fair_twice(kind, model, r, l, x, y);
    }
    true
}

// What it asks of the transitions.
pub fn all_fair(
    kind: Kind,
    model: SoundModel,
    a: usize,
    t: usize,
    l: i64,
    x: &Prices,
    y: &Prices,
) -> bool
    requires { AllPriced kind model.file.now l × SmallPrices (states_of model.file.now) x.now × SmallPrices (states_of model.file.now) y.now }
    ensures { result ≡ all_fair (cost_in kind model.entry.file.now) (automaton_in model.entry.file.now) l kind a t (price_in x.now) (price_in y.now) }
{
    (0..model.transitions).all(|r| fair_to(kind, model, r, a, t, l, x, y))
}

// By how much the last condition is off, of the challenger q against t: its left side less its right. It holds where that is below 0.
pub fn last_off(
    kind: Kind,
    model: SoundModel,
    q: usize,
    t: usize,
    l: i64,
    x: &Prices,
    g: &Prices,
) -> i64
    requires { LastAsked kind model.file.now model.transitions q t l x.now g.now }
    ensures { result ≡ last_off (cost_in kind model.entry.file.now) (automaton_in model.entry.file.now) l (price_in x.now) (price_in g.now) q t }
{
    let challenger = model.fields(q);
    let d = challenger.denominator;
    let sum = prices::sum_of(model.file, challenger.entries.at, challenger.count, g);
    excess(d, x, t, with_cost(kind, model, q, d, l, sum))
}
