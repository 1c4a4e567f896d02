// The k entries of a flow judged, and taken into its equations.
#![tactic(auto)]

ghost use Rattle.std.specs.Prelude.{◌<◌};
ghost use Rattle.rule_kind.specs.Kinds.{rule_of, cost_in};
ghost use Rattle.rule_kind.specs.Steps.{in_question_by};
ghost use Rattle.transition.specs.Known.{automaton_in};
ghost use Rattle.remainders.specs.Nonzero.{Became};
ghost use Rattle.entries_k.specs.Taking.{TellsK, took_k, CanTake, PayAsked, PaidIs, CanTakeKs, TookKs};

use field::Cursor;
use remainders::Remainders;
use rule_kind::Kind;
use sound_model::SoundModel;

// What good k entries come to: how many remainders are not zero then, the sum of k times d times cost, and the cursor past them.
#[derive(Clone, Copy)]
pub struct Taken {
    pub nonzero: usize,
    pub paid: usize,
    pub next: Cursor,
}

// One k entry taken into the equations.
fn take_k(
    model: SoundModel,
    layer: usize,
    r: usize,
    k: usize,
    remainders: &mut Remainders,
    nonzero: usize,
) -> usize
    requires { CanTake model.transitions r k remainders.old nonzero }
    ensures { Became (took_k model.entry.file.now layer r k remainders.old) remainders.new result }
{
    let arrived = remainders::arrive(
        model.file,
        model.places,
        r,
        k as i64,
        rule_kind::arrival(layer),
        remainders,
        nonzero,
    );
    remainders::leave(
        model.file,
        model.places,
        r,
        signed::minus(k),
        rule_kind::departure(layer),
        remainders,
        arrived,
    )
}

// What is paid with k of the transition r: k times d times its cost more.
fn pay(kind: Kind, model: SoundModel, r: usize, k: usize, paid: usize) -> usize
    requires { PayAsked kind model.file.now model.transitions r k paid }
    ensures { PaidIs (cost_in kind model.entry.file.now) model.entry.file.now r k paid result }
{
    let cost = rule_kind::cost_of(kind, model.file, model.transitions, model.places, r);
    if cost == 0 {
        return paid;
    }
    paid + k * model.fields(r).denominator * cost
}

// A k entry is in order, its transition is there and in the question, and it is not zero.
fn stands(
    kind: Kind,
    model: SoundModel,
    action: usize,
    t: usize,
    lowest: usize,
    layer: usize,
    r: usize,
    k: usize,
) -> bool
    requires { (layer < 256) × (r < 65536) }
    ensures { TellsK model.entry.transitions lowest layer r k (in_question_by kind action t layer ((automaton_in model.entry.file.now).source r) ((automaton_in model.entry.file.now).action r)) result }
{
    if layer * 65536 + r < lowest || model.transitions <= r || k == 0 {
        return false;
    }
    let fields = model.fields(r);
    rule_kind::in_question(kind, action, t, layer, fields.source, fields.action)
}

// Each good k entry taken into the equations, up to the first that is not: what all of them come to, where they are good.
pub fn take_ks(
    kind: Kind,
    model: SoundModel,
    action: usize,
    t: usize,
    cert: &[u8],
    first: Cursor,
    entries: usize,
    remainders: &mut Remainders,
    initial: usize,
) -> Option<Taken>
    requires { CanTakeKs kind model.file.now cert.now first.at entries remainders.old initial }
    ensures { TookKs (rule_of kind model.entry.file.now) (cost_in kind model.entry.file.now) model.entry.file.now cert.now action t first.at entries remainders.old remainders.new result }
{
    let mut place = first;
    let mut lowest = 0;
    let mut nonzero = initial;
    let mut paid = 0;
    for _ in 0..entries {
        let layer = place.byte(cert);
        let which = layer.next.pair(cert);
        let amount = which.next.quad(cert);
        let l = layer.value;
        let r = which.value;
        let k = amount.value;
        if !stands(kind, model, action, t, lowest, l, r, k) {
            return None;
        }
        nonzero = take_k(model, l, r, k, remainders, nonzero);
        paid = pay(kind, model, r, k, paid);
        lowest = l * 65536 + r + 1;
        place = amount.next;
    }
    Some(Taken {
        nonzero,
        paid,
        next: place,
    })
}
