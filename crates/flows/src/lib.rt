// The flows of a certificate judged, for each question in its order, and what is left after them.
#![tactic(auto)]

ghost use Rattle.std.specs.Prelude.{◌+◌, ◌≤◌, length};
ghost use Rattle.rule_kind.specs.Kinds.{rule_of, KindStands};
ghost use Rattle.flows.specs.FlowsJudged.{BlocksAgree, JudgesFlows};

use fault::{Fault, Refusal};
use field::Cursor;
use pairs::Rows;
use rule_kind::Kind;
use sound_model::SoundModel;

// The flows behind the n blocks, and 22: the place where the blocks stand, where the certificate is accepted. The blocks are those of the related
// pairs.
pub fn judge_flows(
    kind: Kind,
    model: SoundModel,
    rows: &Rows,
    cert: &[u8],
    blocks: usize,
) -> Result<usize, Fault>
    requires { (blocks + model.states ≤ length cert.now) × KindStands kind model.file.now × BlocksAgree cert.now model.states rows.now blocks }
    ensures { JudgesFlows (rule_of kind model.entry.file.now) model.entry.file.now cert.now model.entry.states rows.now blocks result }
{
    let mut remainders = remainders::no_remainders();
    let mut target = remainders::no_remainders();
    let mut place = Cursor::new(blocks + model.states);
    let mut first = 0;
    let mut refused = None;
    // The loops are left by a label at the first flow refused: the form that document 01 names.
    'flows: for state in 0..model.states {
        let past = runs::run_past(model.file, model.transitions, model.places, state, first);
        let mut t = runs::first_defender(rows, model.states, state, first, past);
        while t < model.states {
            for r in first..past {
                match flow::judge_flow(
                    kind,
                    model,
                    rows,
                    r,
                    t,
                    cert,
                    place,
                    &mut remainders,
                    &mut target,
                ) {
                    Ok(next) => place = next,
                    Err(fault) => {
                        refused = Some(fault);
                        break 'flows;
                    }
                }
            }
            t = runs::next_defender(rows, state, t + 1);
        }
        first = past;
    }
    if let Some(fault) = refused {
        return Err(fault);
    }
    if place.at < cert.len() {
        return Err(Refusal::CertificateBytesLeft.fault().at(place.at));
    }
    Ok(blocks)
}
