// The prices of a refutation: tables of them, and their sums over the entries of a transition.
#![tactic(auto)]

ghost use Rattle.std.specs.Prelude.{◌+◌, ◌*◌, ◌≤◌, ◌<◌, length, ◌≡◌};
ghost use Rattle.rules.specs.definitions.Limits.{limits};
ghost use Rattle.rules.specs.definitions.Bytes.{signed_at};
ghost use Rattle.rules.specs.definitions.Reading.{entries_at};
ghost use Rattle.prices.specs.Prices.{HoldsPrices, IsPrice, Summable, IsSum};
ghost use Rattle.prices.specs.Adding.{Ready, Adds};

use field::Cursor;
use limits::STATES;

// A price has four bytes in its file, and in a table.
pub type Prices = [i32; STATES];

#[derive(Clone, Copy)]
pub struct Sums {
    pub first: i64,
    pub second: i64,
}

// The sums so far, and the place past the entries that they are of.
#[derive(Clone, Copy)]
struct Running {
    first: i64,
    second: i64,
    next: Cursor,
}

// The prices that follow each other from a place on, into a table.
pub fn prices_at(s: &[u8], at: usize, n: usize, out: &mut Prices)
    requires { (n ≤ limits.states) × (at + 4 * n ≤ length s.now) × (length out.old ≡ limits.states) }
    ensures { HoldsPrices n (λ i. signed_at s.now (at + 4 * i)) out.new }
{
    let mut place = Cursor::new(at);
    for price in &mut out[..n] {
        let field = place.price(s);
        *price = field.value as i32;
        place = field.next;
    }
}

// The one price at a place, into a table for each of n states.
pub fn same_price(s: &[u8], at: usize, n: usize, out: &mut Prices)
    requires { (n ≤ limits.states) × (at + 4 ≤ length s.now) × (length out.old ≡ limits.states) }
    ensures { HoldsPrices n (λ i. signed_at s.now at) out.new }
{
    let field = Cursor::new(at).price(s);
    let price = field.value as i32;
    out[..n].fill(price);
}

// The price of a state in a table.
pub fn price_of(prices: &Prices, v: usize) -> i64
    requires { v < limits.states }
    ensures { IsPrice prices.now v result }
{
    let price = prices[v];
    price as i64
}

// The sum of weight times price over the entries from a place on.
pub fn sum_of(s: &[u8], at: usize, count: usize, prices: &Prices) -> i64
    requires { Summable s.now count at prices.now }
    ensures { IsSum (entries_at s.now count at) prices.now result }
{
    let mut place = Cursor::new(at);
    let mut sum = 0;
    for _ in 0..count {
        let entry = transition::entry_at(s, place);
        let price = price_of(prices, entry.state);
        sum = signed::with_term(sum, entry.weight, price);
        place = entry.next;
    }
    sum
}

// Both sums with the next entry.
fn with_entry(s: &[u8], sums: Running, first: &Prices, second: &Prices) -> Running
    requires { Ready s.now first.now second.now 1 sums }
    ensures { Adds s.now first.now second.now 1 sums result }
{
    let place = sums.next;
    let entry = transition::entry_at(s, place);
    let price = price_of(first, entry.state);
    let other_price = price_of(second, entry.state);
    let one = signed::with_term(sums.first, entry.weight, price);
    let other = signed::with_term(sums.second, entry.weight, other_price);
    let next = entry.next;
    Running {
        first: one,
        second: other,
        next,
    }
}

// With the next two.
fn with_two(s: &[u8], sums: Running, first: &Prices, second: &Prices) -> Running
    requires { Ready s.now first.now second.now 2 sums }
    ensures { Adds s.now first.now second.now 2 sums result }
{
    let half = with_entry(s, sums, first, second);
    with_entry(s, half, first, second)
}

// With the last, if one is left.
fn with_last(s: &[u8], sums: Running, first: &Prices, second: &Prices, left: usize) -> Running
    requires { (left < 2) × Ready s.now first.now second.now left sums }
    ensures { Adds s.now first.now second.now left sums result }
{
    if left == 0 {
        return sums;
    }
    with_entry(s, sums, first, second)
}

// With the rest, three at most.
fn with_rest(s: &[u8], sums: Running, first: &Prices, second: &Prices, left: usize) -> Running
    requires { (left < 4) × Ready s.now first.now second.now left sums }
    ensures { Adds s.now first.now second.now left sums result }
{
    if left < 2 {
        return with_last(s, sums, first, second, left);
    }
    let two = with_two(s, sums, first, second);
    with_last(s, two, first, second, left - 2)
}

// The sums for two tables of prices, in one pass over the entries, four of them a turn.
pub fn sums_of(s: &[u8], at: usize, count: usize, first: &Prices, second: &Prices) -> Sums
    requires { Summable s.now count at first.now × Summable s.now count at second.now }
    ensures { IsSum (entries_at s.now count at) first.now result.first × IsSum (entries_at s.now count at) second.now result.second }
{
    let mut sums = Running {
        first: 0,
        second: 0,
        next: Cursor::new(at),
    };
    for _ in 0..count / 4 {
        let half = with_two(s, sums, first, second);
        sums = with_two(s, half, first, second);
    }
    let all = with_rest(s, sums, first, second, count % 4);
    Sums {
        first: all.first,
        second: all.second,
    }
}
