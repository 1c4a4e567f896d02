// The calls that judge a certificate for a model and write its blocks, by each step rule.
#![tactic(auto)]

ghost use Rattle.std.specs.Prelude.{◌≤◌, ◌≡◌, [], ◌∷◌, length};
ghost use Rattle.rules.specs.definitions.Limits.{limits};
ghost use Rattle.rules.specs.definitions.Reading.{head_fault};
ghost use Rattle.rules.specs.definitions.Answers.{filled};
ghost use Rattle.rule_kind.specs.declared.Kind.TheVariants.{Plain, Costs, Strong};
ghost use Rattle.answer.specs.Answered.{Gives};
ghost use Rattle.judge.specs.Judge.{JudgeAnswered, JudgeHandedBack};

use answer::Answer;
use limits::Terms;
use rule_kind::Kind;

// The blocks written into a buffer that has room for them.
fn write_blocks(blocks: &[u8], out: &mut [u8]) -> Answer
    requires { length blocks.now ≤ length out.old }
    ensures { Gives (filled (blocks.now ∷ []) (out.old ∷ [])) (out.new ∷ []) result }
{
    out[..blocks.len()].copy_from_slice(blocks);
    Answer::written(blocks.len())
}

// A pair whose model has a good head.
fn judge_headed(kind: Kind, model: &[u8], certificate: &[u8], blocks: &mut [u8]) -> Answer
    requires { (head_fault limits model.now).number ≡ 0 }
    ensures { JudgeAnswered kind model.now certificate.now blocks.old blocks.new result }
{
    let room = blocks.len();
    match judgement::judge_files(kind, Terms::Lowest, model, certificate, room) {
        Ok(found) => {
            let at = found.blocks;
            write_blocks(&certificate[at..at + found.states], blocks)
        }
        Err(refused) => refused,
    }
}

// What the call that judges answers. Acceptance writes the blocks, one byte a state. The rest of the pair is called here and for the other step rules, so
// that the compiler keeps it out of line, and a refusal at the head needs no frame.
pub fn judge_answer(model: &[u8], certificate: &[u8], blocks: &mut [u8]) -> Answer
    ensures { JudgeAnswered Plain model.now certificate.now blocks.old blocks.new result }
{
    if let Err(refused) = judgement::head_answer(model) {
        return refused;
    }
    judge_headed(Kind::Plain, model, certificate, blocks)
}

// The same of a cost pair.
pub fn judge_costs_answer(model: &[u8], certificate: &[u8], blocks: &mut [u8]) -> Answer
    ensures { JudgeAnswered Costs model.now certificate.now blocks.old blocks.new result }
{
    if let Err(refused) = judgement::head_answer(model) {
        return refused;
    }
    judge_headed(Kind::Costs, model, certificate, blocks)
}

// The same by the strong rule.
pub fn judge_strong_answer(model: &[u8], certificate: &[u8], blocks: &mut [u8]) -> Answer
    ensures { JudgeAnswered Strong model.now certificate.now blocks.old blocks.new result }
{
    if let Err(refused) = judgement::head_answer(model) {
        return refused;
    }
    judge_headed(Kind::Strong, model, certificate, blocks)
}

// The same as `judge_answer`, with the stretch as a slice: the tail of the file that holds the record at fault, empty where none does. Its numbers
// stand beside it, and the written length, 0 on refusal.
pub fn judge<'a>(
    model: &'a [u8],
    certificate: &'a [u8],
    blocks: &mut [u8],
    number: &mut u32,
    file: &mut u32,
    place: &mut usize,
    state: &mut u32,
    remainder: &mut i64,
    written: &mut usize,
) -> &'a [u8]
    ensures { JudgeHandedBack model.now certificate.now blocks.old blocks.new model.entry.ref_ptr certificate.entry.ref_ptr number.new file.new place.new state.new remainder.new written.new result.now result.ref_ptr }
{
    let answer = judge_answer(model, certificate, blocks);
    *written = answer.written;
    answer::hand_back(
        model,
        certificate,
        answer,
        number,
        file,
        place,
        state,
        remainder,
    )
}
