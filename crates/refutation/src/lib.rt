// A refutation judged: its fixed fields, its pair, and its prices.
#![tactic(auto)]

ghost use Rattle.std.specs.Prelude.{◌+◌, ◌≤◌, length};
ghost use Rattle.rule_kind.specs.Kinds.{rule_of, KindStands};
ghost use Rattle.refutation_prices.specs.PricesJudged.{Tables};
ghost use Rattle.refutation.specs.RefutationJudged.{HeadAt, PairJudged, RefutationJudged};

use fault::{Fault, Refusal};
use field::Cursor;
use pairs::Rows;
use prices::Prices;
use rule_kind::Kind;
use sound_model::SoundModel;

const MARK: usize = 0x5058;

// 14, of the challenger q against t.
fn pair_fault(model: SoundModel, rows: &Rows, q: usize, t: usize) -> Result<(), Fault>
    ensures { PairJudged model.entry.file.now model.entry.states model.entry.transitions rows.now q t result }
{
    if model.transitions <= q {
        return Err(Refusal::RefutationPair.fault());
    }
    if model.states <= t {
        return Err(Refusal::RefutationPair.fault());
    }
    let source = model.fields(q).source;
    if t == source {
        return Err(Refusal::RefutationPair.fault());
    }
    if !pairs::related(rows, source, t) {
        return Err(Refusal::RefutationPair.fault());
    }
    Ok(())
}

// The fixed fields of a refutation, and where its prices begin.
#[derive(Clone, Copy)]
struct Head {
    challenger: usize,
    defender: usize,
    prices: Cursor,
}

fn head_at(cert: &[u8], at: usize) -> Head
    requires { at + 5 ≤ length cert.now }
    ensures { HeadAt cert.now at result }
{
    let challenger = Cursor::new(at + 2).pair(cert);
    let defender = challenger.next.byte(cert);
    let prices = defender.next;
    Head {
        challenger: challenger.value,
        defender: defender.value,
        prices,
    }
}

// The pair that a refutation removes, and the cursor past it.
#[derive(Clone, Copy)]
pub struct Refuted {
    pub source: usize,
    pub defender: usize,
    pub next: Cursor,
}

// The refutation at a place, judged against the pairs left when it is read.
pub fn judge_refutation(
    kind: Kind,
    model: SoundModel,
    rows: &Rows,
    cert: &[u8],
    place: Cursor,
    x: &mut Prices,
    y: &mut Prices,
    g: &mut Prices,
) -> Result<Refuted, Fault>
    requires { (place.at ≤ length cert.now) × Tables x.old y.old g.old × KindStands kind model.file.now }
    ensures { RefutationJudged (rule_of kind model.entry.file.now) model.entry.file.now cert.now model.entry.states rows.now place.at x.new y.new g.new result }
{
    let at = place.at;
    record::open_certificate(cert, at, MARK, 5)?;
    let head = head_at(cert, at);
    let pair = pair_fault(model, rows, head.challenger, head.defender);
    fault::at_place(pair, at)?;
    let challenger = model.fields(head.challenger);
    let size = 4 * rule_kind::price_count(kind, model.states, challenger.action);
    let start = head.prices.at;
    if cert.len() - start < size {
        return Err(Refusal::CertificateEnds.fault().at(at));
    }
    let prices = refutation_prices::prices_fault(
        kind,
        model,
        rows,
        head.challenger,
        head.defender,
        challenger.action,
        cert,
        start,
        x,
        y,
        g,
    );
    fault::at_place(prices, at)?;
    Ok(Refuted {
        source: challenger.source,
        defender: head.defender,
        next: Cursor::new(start + size),
    })
}
