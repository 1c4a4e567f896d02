// A flow record judged: its entries, and its equations as one signed number a state, left less right.
#![tactic(auto)]

ghost use Rattle.std.specs.Prelude.{◌+◌, ◌≤◌, ◌<◌, length};
ghost use Rattle.rule_kind.specs.Kinds.{rule_of, KindStands};
ghost use Rattle.remainders.specs.Remainders.{AllZero};
ghost use Rattle.flow.specs.FlowJudged.{HeadAt, CanJudge, FlowJudged};

use fault::{Fault, Refusal};
use field::Cursor;
use pairs::Rows;
use remainders::Remainders;
use rule_kind::Kind;
use sound_model::SoundModel;

const MARK: usize = 0x464C;

// D and the k count of a flow, and where its entries begin.
#[derive(Clone, Copy)]
struct Head {
    d: usize,
    entries: usize,
    first: Cursor,
}

fn head_at(cert: &[u8], at: usize) -> Head
    requires { at + 8 ≤ length cert.now }
    ensures { HeadAt cert.now at result }
{
    let d = Cursor::new(at + 2).quad(cert);
    let entries = d.next.pair(cert);
    let first = entries.next;
    Head {
        d: d.value,
        entries: entries.value,
        first,
    }
}

// The flow at a place, from its k entries on, which are whole: its fault, or the cursor past it.
fn judge_entries(
    kind: Kind,
    model: SoundModel,
    rows: &Rows,
    q: usize,
    t: usize,
    cert: &[u8],
    place: Cursor,
    head: Head,
    remainders: &mut Remainders,
    target: &mut Remainders,
) -> Result<Cursor, Fault>
    requires { CanJudge kind model.file.now cert.now model.states model.transitions q t place.at head remainders.old target.old }
    ensures { FlowJudged (rule_of kind model.entry.file.now) model.entry.file.now cert.now model.entry.states rows.now q t place.at remainders.new target.new result }
{
    let challenger = model.fields(q);
    let given = remainders::give(remainders, t, 1, head.d, 0);
    let Some(k) = entries_k::take_ks(
        kind,
        model,
        challenger.action,
        t,
        cert,
        head.first,
        head.entries,
        remainders,
        given,
    ) else {
        return Err(Refusal::FlowEntry.fault().at(place.at));
    };
    if cert.len() - k.next.at < 2 {
        return Err(Refusal::CertificateEnds.fault().at(place.at));
    }
    let entries = k.next.pair(cert);
    if cert.len() - entries.next.at < 6 * entries.value {
        return Err(Refusal::CertificateEnds.fault().at(place.at));
    }
    let asked = remainders::arrive(
        model.file,
        model.places,
        q,
        signed::minus(head.d),
        0,
        target,
        0,
    );
    let Some(w) = entries_w::take_ws(
        cert,
        entries.next,
        entries.value,
        model.states,
        rows,
        challenger.denominator,
        rule_kind::w_departure(kind, challenger.action),
        remainders,
        k.nonzero,
        target,
        asked,
    ) else {
        return Err(Refusal::FlowEntry.fault().at(place.at));
    };
    let owed = rule_kind::cost_of(kind, model.file, model.transitions, model.places, q) * head.d;
    let judged = equations::verdict(
        model.states,
        remainders,
        w.nonzero,
        target,
        w.target,
        k.paid,
        owed,
    );
    fault::at_place(judged, place.at)?;
    Ok(w.next)
}

// The flow record at a place, for the challenger q against t: its fault, or the cursor past it. The remainders are zero before it, and after it where it has no fault.
pub fn judge_flow(
    kind: Kind,
    model: SoundModel,
    rows: &Rows,
    q: usize,
    t: usize,
    cert: &[u8],
    place: Cursor,
    remainders: &mut Remainders,
    target: &mut Remainders,
) -> Result<Cursor, Fault>
    requires { (q < model.transitions) × (t < model.states) × (place.at ≤ length cert.now) × AllZero remainders.old × AllZero target.old × KindStands kind model.file.now }
    ensures { FlowJudged (rule_of kind model.entry.file.now) model.entry.file.now cert.now model.entry.states rows.now q t place.at remainders.new target.new result }
{
    record::open_certificate(cert, place.at, MARK, 8)?;
    let head = head_at(cert, place.at);
    if head.d == 0 {
        return Err(Refusal::FlowEntry.fault().at(place.at));
    }
    if cert.len() - head.first.at < 7 * head.entries {
        return Err(Refusal::CertificateEnds.fault().at(place.at));
    }
    judge_entries(
        kind, model, rows, q, t, cert, place, head, remainders, target,
    )
}
