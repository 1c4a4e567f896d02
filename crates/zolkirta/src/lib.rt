// The product: the calls for C and Rust, over byte slices and plain numbers; a stretch by where it starts in its file and how long it is.
// No public entry has a `requires`.
#![tactic(auto)]

ghost use Rattle.rule_kind.specs.declared.Kind.TheVariants.{Plain, Costs, Strong};
ghost use Rattle.fetch.specs.Fetched.{FetchAnswered};
ghost use Rattle.judge.specs.Judge.{JudgeAnswered};
ghost use Rattle.reduce.specs.Reduce.{ReduceAnswered};
ghost use Rattle.rewrite.specs.Rewrite.{RewriteAnswered};
ghost use Rattle.sheet.specs.Sheet.{SheetAnswered};
ghost use Rattle.join.specs.Join.{JoinAnswered};
ghost use Rattle.compose.specs.Compose.{ComposeAnswered};
ghost use Rattle.hide.specs.Hide.{HideAnswered};
ghost use Rattle.sentence.specs.Sentence.{told, SentenceAnswered};
ghost use Rattle.largest.specs.Largest.{LargestAnswered};
ghost use Rattle.alike.specs.Alike.{named, AlikeAnswered};
ghost use Rattle.read_prism.specs.Prism.{PrismAnswered};

use alike::AlikeAnswer;
use answer::{Answer, PairAnswer};

// The run of the model's bytes that holds the transitions that leave a state, or the stretch of a refusal, by where it starts in the model
// and how long it is.
#[unsafe(no_mangle)]
pub extern "C" fn zolkirta_fetch(model: &[u8], state: u32) -> Answer
    ensures { FetchAnswered model.now state result }
{
    fetch::fetch_answer(model, state)
}

// Judges a certificate for a model. Acceptance writes the blocks, one byte a state.
#[unsafe(no_mangle)]
pub extern "C" fn zolkirta_judge(model: &[u8], certificate: &[u8], blocks: &mut [u8]) -> Answer
    ensures { JudgeAnswered Plain model.now certificate.now blocks.old blocks.new result }
{
    judge::judge_answer(model, certificate, blocks)
}

// Judges a certificate for a model and writes the model with each block merged into one state.
#[unsafe(no_mangle)]
pub extern "C" fn zolkirta_reduce(model: &[u8], certificate: &[u8], out: &mut [u8]) -> Answer
    ensures { ReduceAnswered model.now certificate.now out.old out.new result }
{
    reduce::reduce_answer(model, certificate, out)
}

// Judges a cost certificate for a cost model. Acceptance writes the blocks, one byte a state.
#[unsafe(no_mangle)]
pub extern "C" fn zolkirta_judge_costs(
    model: &[u8],
    certificate: &[u8],
    blocks: &mut [u8],
) -> Answer
    ensures { JudgeAnswered Costs model.now certificate.now blocks.old blocks.new result }
{
    judge::judge_costs_answer(model, certificate, blocks)
}

// Judges a certificate for a model by the strong rule. Acceptance writes the blocks, one byte a state.
#[unsafe(no_mangle)]
pub extern "C" fn zolkirta_judge_strong(
    model: &[u8],
    certificate: &[u8],
    blocks: &mut [u8],
) -> Answer
    ensures { JudgeAnswered Strong model.now certificate.now blocks.old blocks.new result }
{
    judge::judge_strong_answer(model, certificate, blocks)
}

// Judges a certificate for a model and writes the sheet of its blocks.
#[unsafe(no_mangle)]
pub extern "C" fn zolkirta_sheet(model: &[u8], certificate: &[u8], sheet: &mut [u8]) -> Answer
    ensures { SheetAnswered model.now certificate.now sheet.old sheet.new result }
{
    sheet::sheet_answer(model, certificate, sheet)
}

// Writes two models as one: the second's states and transitions follow the first's. A fault in the second model has file 3.
#[unsafe(no_mangle)]
pub extern "C" fn zolkirta_join(first: &[u8], second: &[u8], out: &mut [u8]) -> Answer
    ensures { JoinAnswered first.now second.now out.old out.new result }
{
    join::join_answer(first, second, out)
}

// Whether a state of the first part of a joined model behaves as one of the second, both by joined numbers.
#[unsafe(no_mangle)]
pub extern "C" fn zolkirta_alike(
    model: &[u8],
    first_count: u32,
    certificate: &[u8],
    first_state: u32,
    second_state: u32,
) -> AlikeAnswer
    ensures { AlikeAnswered model.now certificate.now (named first_count first_state second_state) result }
{
    alike::alike_answer(model, first_count, certificate, first_state, second_state)
}

// Reads the text of a PRISM transition file of a decision process and writes the model that it holds.
#[unsafe(no_mangle)]
pub extern "C" fn zolkirta_read_prism(text: &[u8], out: &mut [u8]) -> Answer
    ensures { PrismAnswered text.now out.old out.new result }
{
    read_prism::read_prism_answer(text, out)
}

// Rewrites a stored pair in lowest terms: it is judged, in whatever terms its model is, and both files are written, each as long as it was.
#[unsafe(no_mangle)]
pub extern "C" fn zolkirta_rewrite(
    model: &[u8],
    certificate: &[u8],
    model_out: &mut [u8],
    certificate_out: &mut [u8],
) -> PairAnswer
    ensures { RewriteAnswered Plain model.now certificate.now model_out.old certificate_out.old model_out.new certificate_out.new result }
{
    rewrite::rewrite_answer(model, certificate, model_out, certificate_out)
}

// The same of a stored cost pair, whose costs stay.
#[unsafe(no_mangle)]
pub extern "C" fn zolkirta_rewrite_costs(
    model: &[u8],
    certificate: &[u8],
    model_out: &mut [u8],
    certificate_out: &mut [u8],
) -> PairAnswer
    ensures { RewriteAnswered Costs model.now certificate.now model_out.old certificate_out.old model_out.new certificate_out.new result }
{
    rewrite::rewrite_costs_answer(model, certificate, model_out, certificate_out)
}

// Writes the composition of two models, the two working side by side. A fault in the right model has file 3.
#[unsafe(no_mangle)]
pub extern "C" fn zolkirta_compose(left: &[u8], right: &[u8], out: &mut [u8]) -> Answer
    ensures { ComposeAnswered left.now right.now out.old out.new result }
{
    compose::compose_answer(left, right, out)
}

// Writes a model with the external actions of a set, one byte a member, made internal.
#[unsafe(no_mangle)]
pub extern "C" fn zolkirta_hide(model: &[u8], actions: &[u8], out: &mut [u8]) -> Answer
    ensures { HideAnswered model.now actions.now out.old out.new result }
{
    hide::hide_answer(model, actions, out)
}

// Writes an English sentence that tells the number of an answer, with its phrase, and its file, place, state and remainder.
#[unsafe(no_mangle)]
pub extern "C" fn zolkirta_sentence(
    number: u32,
    file: u32,
    place: usize,
    state: u32,
    remainder: i64,
    out: &mut [u8],
) -> Answer
    ensures { SentenceAnswered (told number file place state remainder) out.old out.new result }
{
    sentence::sentence_answer(number, file, place, state, remainder, out)
}

// Writes the model and the certificate with the most flow records for so many states and transitions.
#[unsafe(no_mangle)]
pub extern "C" fn zolkirta_largest(
    states: u32,
    transitions: u32,
    model_out: &mut [u8],
    certificate_out: &mut [u8],
) -> PairAnswer
    ensures { LargestAnswered states transitions model_out.old certificate_out.old model_out.new certificate_out.new result }
{
    largest::largest_answer(states, transitions, model_out, certificate_out)
}
