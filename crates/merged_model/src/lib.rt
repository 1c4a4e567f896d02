// The merged model: one state for each block, and its file.
#![tactic(auto)]

ghost use Rattle.std.specs.Prelude.{◌+◌, ◌≤◌, ◌<◌, ◌≡◌, length};
ghost use Rattle.rules.specs.definitions.Reading.{model_at};
ghost use Rattle.rules.specs.definitions.BlockCount.{block_count};
ghost use Rattle.rules.proofs.argument.NumberedBlocks.{NumberedBlocks};
ghost use Rattle.quotient.specs.definitions.Quotient.{label_of_block, block_labels, merged_file};
ghost use Rattle.answer.specs.Answered.{FileWritten};
ghost use Rattle.writer.specs.Appends.{Appends};
ghost use Rattle.merged_model.specs.File.{CanWriteParts, PartsWritten};

use limits::{RECORDS, STATES};
use merged_transitions::Kept;
use sound_model::SoundModel;

// One more than the highest block.
pub fn block_count(blocks: &[u8]) -> usize
    ensures { result ≡ block_count blocks.now }
{
    blocks
        .iter()
        .map(|block| *block as usize + 1)
        .max()
        .unwrap_or(0)
}

// The label of the first member of a block.
fn label_of(labels: &[u8], blocks: &[u8], b: usize) -> usize
    requires { length labels.now ≡ length blocks.now }
    ensures { (result ≡ label_of_block blocks.now labels.now b) × (result < 256) }
{
    for (v, block) in blocks.iter().enumerate() {
        if *block as usize == b {
            return labels[v] as usize;
        }
    }
    0
}

// The labels of the first k blocks, appended.
pub fn write_labels(labels: &[u8], blocks: &[u8], k: usize, out: &mut [u8], at: usize) -> usize
    requires { (length labels.now ≡ length blocks.now) × (at + k ≤ length out.old) }
    ensures { Appends (block_labels blocks.now labels.now k 0) at out.old out.new result }
{
    let mut next = at;
    for b in 0..k {
        next = writer::byte(out, next, label_of(labels, blocks, b));
    }
    next
}

// The file of the merged model, from its transition records.
fn write_parts(
    model: SoundModel,
    blocks: &[u8],
    k: usize,
    records: &[u8],
    kept: Kept,
    out: &mut [u8],
)
    requires { CanWriteParts model.file.now blocks.now k records.now kept out.old }
    ensures { PartsWritten model.entry.file.now blocks.now out.old out.new }
{
    let m = model_head::head_at(model.file).actions;
    let mut labels = [0; STATES];
    write_labels(
        &model.file[8..8 + model.states],
        blocks,
        k,
        &mut labels[..],
        0,
    );
    writer::write_model(out, m, &labels[..k], kept.count, &records[..kept.size]);
}

// The file of the merged model, written if there is room for it, and its length.
pub fn write_file(model: SoundModel, blocks: &[u8], out: &mut [u8]) -> usize
    requires { NumberedBlocks (model_at model.file.now) blocks.now }
    ensures { FileWritten (merged_file (model_at model.entry.file.now) blocks.now) out.old out.new result }
{
    let mut records = [0; RECORDS];
    let k = block_count(blocks);
    let kept = merged_transitions::write_transitions(model, blocks, k, &mut records[..]);
    let size = 8 + k + kept.size;
    if size <= out.len() {
        write_parts(model, blocks, k, &records[..], kept, out);
    }
    size
}
