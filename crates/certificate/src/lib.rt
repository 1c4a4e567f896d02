// The certificate file judged: head, refutations, blocks, flows.
#![tactic(auto)]

ghost use Rattle.std.specs.Prelude.{◌+◌, ◌≤◌, ◌<◌, ◌≡◌, length};
ghost use Rattle.rules.specs.definitions.Limits.{limits};
ghost use Rattle.rules.specs.definitions.CertificateAt.{blocks_place};
ghost use Rattle.rule_kind.specs.Kinds.{rule_of, KindStands};
ghost use Rattle.rules.specs.definitions.Judging.{judge_certificate};
ghost use Rattle.transition.specs.Known.{automaton_in};
ghost use Rattle.flows.specs.FlowsJudged.{Judges};
ghost use Rattle.certificate.specs.CertificateJudged.{HeadJudged, JudgesBlocks};
ghost use Rattle.certificate.specs.Refuting.{Refuting, RefutationsJudged};

use fault::{Fault, Refusal};
use field::Cursor;
use limits::{REFUTATIONS, STATES};
use pairs::Rows;
use rule_kind::Kind;
use sound_model::SoundModel;

// Refusals 11 to 13 of the head, which begins the file.
fn head_fault(kind: Kind, cert: &[u8]) -> Result<(), Fault>
    ensures { HeadJudged kind cert.now result }
{
    record::open_certificate(cert, 0, rule_kind::mark(kind), 4)?;
    let count = Cursor::new(2).pair(cert).value;
    if REFUTATIONS < count {
        return Err(Refusal::RefutationCount.fault().at(0));
    }
    Ok(())
}

// The blocks record at a place, and the flows. Those are judged by a call for each kind, so that the compiler keeps their loops out of line: fewer values
// live through them.
fn judge_blocks(
    kind: Kind,
    model: SoundModel,
    rows: &Rows,
    cert: &[u8],
    at: usize,
) -> Result<usize, Fault>
    requires { (at ≤ length cert.now) × KindStands kind model.file.now }
    ensures { JudgesBlocks (rule_of kind model.entry.file.now) model.entry.file.now cert.now model.entry.states rows.now at result }
{
    blocks::blocks_fault(cert, at, model.states, rows)?;
    let start = at + 2;
    match kind {
        Kind::Plain => flows::judge_flows(Kind::Plain, model, rows, cert, start),
        Kind::Costs => flows::judge_flows(Kind::Costs, model, rows, cert, start),
        Kind::Strong => flows::judge_flows(Kind::Strong, model, rows, cert, start),
    }
}

// Judges so many refutations, and removes the pair of each. Their prices need no stack once the flows are judged.
fn judge_refutations(
    kind: Kind,
    model: SoundModel,
    cert: &[u8],
    refutations: usize,
    rows: &mut Rows,
) -> Result<Cursor, Fault>
    requires { KindStands kind model.file.now × Refuting (rule_of kind model.file.now) model.file.now cert.now model.states rows.old refutations 4 }
    ensures { RefutationsJudged (rule_of kind model.entry.file.now) model.entry.file.now cert.now model.entry.states rows.new result }
{
    let mut x = [0; STATES];
    let mut y = [0; STATES];
    let mut g = [0; STATES];
    let mut place = Cursor::new(4);
    for _ in 0..refutations {
        let refuted = refutation::judge_refutation(
            kind, model, rows, cert, place, &mut x, &mut y, &mut g,
        )?;
        pairs::remove(rows, refuted.source, refuted.defender);
        place = refuted.next;
    }
    Ok(place)
}

// Judges a certificate for a sound model.
pub fn judge_certificate(kind: Kind, model: SoundModel, cert: &[u8]) -> Result<usize, Fault>
    requires { KindStands kind model.file.now }
    ensures { Judges cert.now model.entry.states (blocks_place (rule_of kind model.entry.file.now) (automaton_in model.entry.file.now) cert.now + 2) (judge_certificate limits (rule_of kind model.entry.file.now) (automaton_in model.entry.file.now) cert.now) result }
{
    head_fault(kind, cert)?;
    let mut rows = pairs::no_rows();
    classes::start(&model.file[8..8 + model.states], model.states, &mut rows);
    let refutations = Cursor::new(2).pair(cert).value;
    let blocks = judge_refutations(kind, model, cert, refutations, &mut rows)?;
    judge_blocks(kind, model, &rows, cert, blocks.at)
}
