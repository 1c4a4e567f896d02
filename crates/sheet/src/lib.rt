// The call that writes the block sheet: a pair judged, the rows of its blocks, and the sheet where there is room for it.
#![tactic(auto)]

ghost use Rattle.std.specs.Prelude.{[], ◌∷◌};
ghost use Rattle.rules.specs.definitions.Answers.{files_outcome};
ghost use Rattle.answer.specs.Answered.{Gives};
ghost use Rattle.sheet_blocks.specs.Blocks.{sheet_of, ModelBlocks};
ghost use Rattle.sheet.specs.Sheet.{SheetAnswered};

use answer::Answer;
use fault::Refusal;
use limits::{STATES, Terms};
use rule_kind::Kind;

// The sheet of accepted blocks, written if there is room for it. The pairs still related are those that share a block, so their rows are made
// from the blocks again.
fn write_sheet(blocks: &[u8], out: &mut [u8]) -> Answer
    requires { ModelBlocks blocks.now }
    ensures { Gives (files_outcome 28 (sheet_of blocks.now ∷ []) (out.old ∷ [])) (out.new ∷ []) result }
{
    let mut rows = pairs::no_rows();
    classes::start(blocks, blocks.len(), &mut rows);
    let room = out.len();
    let size = sheet_blocks::write_sheet(blocks, &rows, out);
    Answer::of_file(Refusal::SheetRoom, size, room)
}

// What the call that writes the sheet answers. It lends no block buffer, so the blocks have the room of every model.
pub fn sheet_answer(model: &[u8], certificate: &[u8], out: &mut [u8]) -> Answer
    ensures { SheetAnswered model.now certificate.now out.old out.new result }
{
    if let Err(refused) = judgement::head_answer(model) {
        return refused;
    }
    match judgement::judge_files(Kind::Plain, Terms::Lowest, model, certificate, STATES) {
        Ok(found) => {
            let at = found.blocks;
            write_sheet(&certificate[at..at + found.states], out)
        }
        Err(refused) => refused,
    }
}
