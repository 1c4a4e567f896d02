// The prices of a refutation, and their conditions in their order.
#![tactic(auto)]

ghost use Rattle.std.specs.Prelude.{◌+◌, ◌*◌, ◌^◌, ◌≤◌, ◌<◌, length, ◌≡◌};
ghost use Rattle.std.specs.Int.Signed.{mag};
ghost use Rattle.rules.specs.definitions.Limits.{limits};
ghost use Rattle.rules.specs.definitions.Bytes.{signed_at};
ghost use Rattle.rule_kind.specs.Kinds.{rule_of, cost_in};
ghost use Rattle.rule_kind.specs.Steps.{first_prices, prices_by};
ghost use Rattle.transition.specs.Known.{automaton_in};
ghost use Rattle.prices.specs.Prices.{price_in, HoldsPrices, SmallPrices};
ghost use Rattle.conditions.specs.Conditions.{conditions_fault};
ghost use Rattle.refutation_prices.specs.PricesJudged.{Tables, Asked, FaultIs, index_of_a, PricesJudged};

use fault::{Fault, Refusal};
use pairs::Rows;
use prices::Prices;
use rule_kind::Kind;
use sound_model::SoundModel;

// 15 and 16, of a challenger with the action a. Where there is no move the prices y are x. First come the parameters that its loops read most,
// in registers.
fn conditions_fault(
    x: &Prices,
    y: &Prices,
    model: SoundModel,
    a: usize,
    kind: Kind,
    rows: &Rows,
    q: usize,
    t: usize,
    l: i64,
    g: &Prices,
) -> Result<(), Fault>
    requires { Asked kind model.file.now model.states model.transitions q t × SmallPrices model.states x.now × SmallPrices model.states y.now × SmallPrices model.states g.now × (mag l < 2 ^ 31) }
    ensures { FaultIs model.entry.states rows.now (λ R. conditions_fault (cost_in kind model.entry.file.now) (automaton_in model.entry.file.now) l kind R a q t (price_in x.now) (price_in y.now) (price_in g.now)) result }
{
    if !conditions::all_fair(kind, model, a, t, l, x, y) {
        return Err(Refusal::PriceCondition.fault());
    }
    if !related_prices::all_related(rows, model.states, y, g) {
        return Err(Refusal::PriceCondition.fault());
    }
    let off = conditions::last_off(kind, model, q, t, l, x, g);
    if 0 <= off {
        return Err(Refusal::LastCondition.broken(t, off));
    }
    Ok(())
}

// The prices A that stand from a place on. Where there is one, for t alone, it goes to every state: no other is asked for it.
fn first_prices_at(kind: Kind, cert: &[u8], at: usize, n: usize, x: &mut Prices)
    requires { (n ≤ limits.states) × (at + 4 * first_prices kind n ≤ length cert.now) × (length x.old ≡ limits.states) }
    ensures { HoldsPrices n (λ v. signed_at cert.now (at + 4 * index_of_a kind v)) x.new }
{
    if let Kind::Strong = kind {
        return prices::same_price(cert, at, n, x);
    }
    prices::prices_at(cert, at, n, x)
}

// 15 and 16, of the prices that stand from a place on, by a challenger with the action a.
pub fn prices_fault(
    kind: Kind,
    model: SoundModel,
    rows: &Rows,
    q: usize,
    t: usize,
    a: usize,
    cert: &[u8],
    at: usize,
    x: &mut Prices,
    y: &mut Prices,
    g: &mut Prices,
) -> Result<(), Fault>
    requires { Asked kind model.file.now model.states model.transitions q t × (a ≡ (automaton_in model.file.now).action q) × (at + 4 * prices_by kind model.states a ≤ length cert.now) × Tables x.old y.old g.old }
    ensures { PricesJudged (rule_of kind model.entry.file.now) model.entry.file.now cert.now model.entry.states rows.now q t at x.new y.new g.new result }
{
    let n = model.states;
    first_prices_at(kind, cert, at, n, x);
    let past = at + 4 * rule_kind::first_prices(kind, n);
    if !rule_kind::has_move(kind, a) {
        prices::prices_at(cert, past, n, g);
        let l = rule_kind::further_price(kind, cert, past + 4 * n);
        return conditions_fault(x, x, model, a, kind, rows, q, t, l, g);
    }
    prices::prices_at(cert, past, n, y);
    prices::prices_at(cert, past + 4 * n, n, g);
    let l = rule_kind::further_price(kind, cert, past + 8 * n);
    conditions_fault(x, y, model, a, kind, rows, q, t, l, g)
}
