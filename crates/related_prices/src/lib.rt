// The price condition of related states.
#![tactic(auto)]

ghost use Rattle.std.specs.Prelude.{◌+◌, ◌*◌, ◌≤◌, ◌<◌};
ghost use Rattle.rules.specs.definitions.Limits.{limits};
ghost use Rattle.word.specs.Bits.{word_bits};
ghost use Rattle.prices.specs.Prices.{SmallPrices};
ghost use Rattle.related_prices.specs.Highest.{HighestBelow, IsHighest, IsKnown, AboveAll, AreRelated};

use pairs::Rows;
use prices::Prices;
use word::BITS;

// The highest of a price and of the prices g of the states that are related to v by word k of its row.
fn highest_in(rows: &Rows, v: usize, k: usize, known: i64, g: &Prices) -> i64
    requires { (v < limits.states) × (k < 2) × HighestBelow rows.now v (k * word_bits) g.now known }
    ensures { HighestBelow rows.now v (k * word_bits + word_bits) g.now result }
{
    let mut most = known;
    let mut rest = pairs::part(rows, v, k);
    let mut u = word::next_bit(rest, 0);
    while u < BITS {
        let price = prices::price_of(g, k * BITS + u);
        most = signed::larger(most, price);
        rest = word::without(rest, u);
        u = word::next_bit(rest, 0);
    }
    most
}

// The highest of the prices g of the states that are related to v.
fn highest(rows: &Rows, v: usize, g: &Prices) -> i64
    requires { v < limits.states }
    ensures { IsHighest rows.now v g.now result }
{
    let most = highest_in(rows, v, 0, -0x8000_0000, g);
    highest_in(rows, v, 1, most, g)
}

// The same, where an earlier state and its highest price may be known: states with equal rows have it in common.
fn highest_after(rows: &Rows, v: usize, known: Option<(usize, i64)>, g: &Prices) -> i64
    requires { (v < limits.states) × IsKnown rows.now g.now v known }
    ensures { IsHighest rows.now v g.now result }
{
    if let Some((earlier, most)) = known {
        if pairs::same_in(rows, v, rows, earlier) {
            return most;
        }
    }
    highest(rows, v, g)
}

// The highest of the prices g of all states. It is enough to know that none is above it.
fn highest_of_all(n: usize, g: &Prices) -> i64
    requires { (n ≤ limits.states) × SmallPrices n g.now }
    ensures { AboveAll n g.now result }
{
    let mut most = -0x8000_0000;
    for u in 0..n {
        let price = prices::price_of(g, u);
        most = signed::larger(most, price);
    }
    most
}

// For each related v and u, x(v) is at least g(u). The row of v is asked for only where x(v) is below the highest price of all.
pub fn all_related(rows: &Rows, n: usize, x: &Prices, g: &Prices) -> bool
    requires { (n ≤ limits.states) × SmallPrices n x.now × SmallPrices n g.now }
    ensures { AreRelated n rows.now x.now g.now result }
{
    let top = highest_of_all(n, g);
    let mut known = None;
    for v in 0..n {
        let price = prices::price_of(x, v);
        if top <= price {
            continue;
        }
        let most = highest_after(rows, v, known, g);
        if price < most {
            return false;
        }
        known = Some((v, most));
    }
    true
}
