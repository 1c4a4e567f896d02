// The calls that rewrite a stored pair in lowest terms (document 02, K10): it is judged by the rules without 34, and both files are written.
#![tactic(auto)]

ghost use Rattle.std.specs.Prelude.{◌≡◌, false};
ghost use Rattle.rules.specs.definitions.Limits.{limits};
ghost use Rattle.rules.specs.definitions.Reading.{head_fault};
ghost use Rattle.rule_kind.specs.Kinds.{is_strong};
ghost use Rattle.rule_kind.specs.declared.Kind.TheVariants.{Plain, Costs};
ghost use Rattle.rewrite.specs.Rewrite.{CanRewrite, RewriteAnswered};

use answer::{Answer, PairAnswer};
use fault::Refusal;
use limits::{STATES, Terms};
use rule_kind::Kind;
use sound_model::SoundModel;

// An accepted pair of n states and so many transitions, whose flows begin at a place: 35, 36, or both files.
fn write_pair(
    kind: Kind,
    model: &[u8],
    n: usize,
    count: usize,
    certificate: &[u8],
    flows: usize,
    model_out: &mut [u8],
    certificate_out: &mut [u8],
) -> PairAnswer
    requires { CanRewrite kind model.now n count certificate.now flows }
    ensures { RewriteAnswered kind model.now certificate.now model_out.old certificate_out.old model_out.new certificate_out.new result }
{
    let places = transition::places_of(model, n, count);
    let sound = SoundModel {
        file: model,
        states: n,
        transitions: count,
        places: &places,
    };
    let divisors = divisors::divisors_of(sound);
    if let Some(large) = rewritten_flows::first_large(certificate, &divisors, flows) {
        let wrong = Refusal::LargeK.fault().at(large);
        return answer::unwritten(Answer::refused_in(wrong, 2, certificate.len()));
    }
    if model_out.len() < model.len() {
        return answer::unwritten(Answer::refused(Refusal::RewrittenRoom));
    }
    if certificate_out.len() < certificate.len() {
        return answer::unwritten(Answer::refused(Refusal::RewrittenRoom));
    }
    rewritten_model::write_file(sound, &divisors, model_out);
    rewritten_flows::write_file(certificate, &divisors, flows, certificate_out);
    PairAnswer {
        answer: Answer::written(model.len()),
        certificate_written: certificate.len(),
    }
}

// A pair whose model has a good head.
fn rewrite_headed(
    kind: Kind,
    model: &[u8],
    certificate: &[u8],
    model_out: &mut [u8],
    certificate_out: &mut [u8],
) -> PairAnswer
    requires { ((head_fault limits model.now).number ≡ 0) × (is_strong kind ≡ false) }
    ensures { RewriteAnswered kind model.now certificate.now model_out.old certificate_out.old model_out.new certificate_out.new result }
{
    match judgement::judge_files(kind, Terms::Any, model, certificate, STATES) {
        Ok(found) => {
            let flows = found.blocks + found.states;
            write_pair(
                kind,
                model,
                found.states,
                found.transitions,
                certificate,
                flows,
                model_out,
                certificate_out,
            )
        }
        Err(refused) => answer::unwritten(refused),
    }
}

// A pair by its rule, plain or with costs.
fn rewrite_by(
    kind: Kind,
    model: &[u8],
    certificate: &[u8],
    model_out: &mut [u8],
    certificate_out: &mut [u8],
) -> PairAnswer
    requires { is_strong kind ≡ false }
    ensures { RewriteAnswered kind model.now certificate.now model_out.old certificate_out.old model_out.new certificate_out.new result }
{
    if let Err(refused) = judgement::head_answer(model) {
        return answer::unwritten(refused);
    }
    rewrite_headed(kind, model, certificate, model_out, certificate_out)
}

// What the call that rewrites a pair without costs answers.
pub fn rewrite_answer(
    model: &[u8],
    certificate: &[u8],
    model_out: &mut [u8],
    certificate_out: &mut [u8],
) -> PairAnswer
    ensures { RewriteAnswered Plain model.now certificate.now model_out.old certificate_out.old model_out.new certificate_out.new result }
{
    rewrite_by(Kind::Plain, model, certificate, model_out, certificate_out)
}

// The same of a cost pair.
pub fn rewrite_costs_answer(
    model: &[u8],
    certificate: &[u8],
    model_out: &mut [u8],
    certificate_out: &mut [u8],
) -> PairAnswer
    ensures { RewriteAnswered Costs model.now certificate.now model_out.old certificate_out.old model_out.new certificate_out.new result }
{
    rewrite_by(Kind::Costs, model, certificate, model_out, certificate_out)
}
