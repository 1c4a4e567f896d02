// The transitions of the merged model: by block and then by original place, of those of a block that are the same the first.
#![tactic(auto)]

ghost use Rattle.std.specs.Prelude.{◌≤◌, ◌<◌, length};
ghost use Rattle.limits.specs.Sizes.{records};
ghost use Rattle.merged_transition.specs.MergedTransition.{BlocksBelow};
ghost use Rattle.merged_transitions.specs.MergedTransitions.{Chained, CanKeep, Keeps, CanWrite, Wrote, WroteAll};

use limits::{STATES, TRANSITIONS};
use merged_transition::Weights;
use sound_model::SoundModel;

// The transitions of the merged model: how many, and how many bytes their records have.
#[derive(Clone, Copy)]
pub struct Kept {
    pub count: usize,
    pub size: usize,
}

// For each block the first transition that leaves one of its members, or the count where there is none.
type Heads = [u16; STATES];

// For each transition the next one that leaves a member of the same block, or the count.
type Chain = [u16; TRANSITIONS];

// The transitions chained by block, from the last to the first.
fn chain_by_block(model: SoundModel, blocks: &[u8], k: usize, heads: &mut Heads, chain: &mut Chain)
    requires { BlocksBelow model.states k blocks.now × Chained model.file.now blocks.now model.transitions model.transitions heads.old chain.old }
    ensures { Chained model.entry.file.now blocks.now model.entry.transitions 0 heads.new chain.new }
{
    for r in (0..model.transitions).rev() {
        let source = model.fields(r).source;
        let b = merged_transition::block_of(blocks, source);
        chain[r] = heads[b];
        heads[b] = r as u16;
    }
}

// The transition r of the block b merged and appended, if it is the same as none from `start` on.
fn keep_of_block(
    model: SoundModel,
    r: usize,
    blocks: &[u8],
    k: usize,
    b: usize,
    weights: &mut Weights,
    out: &mut [u8],
    start: usize,
    kept: Kept,
) -> Kept
    requires { CanKeep model.file.now model.states model.transitions blocks.now k b r weights.old out.old start kept }
    ensures { Keeps model.entry.file.now blocks.now b r weights.new out.old out.new start result }
{
    let next = merged_transition::write_merged(model, r, blocks, k, weights, out, kept.size);
    let longer = Kept {
        count: kept.count + 1,
        size: next,
    };
    if same_transition::is_repeated(out, start, kept.size) {
        return kept; // the next record is written over it
    }
    longer
}

// The transitions of the block b, by original place. They are a list by numbers in the two tables: a pass over all transitions for each block
// is slower, and there is no heap.
fn write_block(
    model: SoundModel,
    blocks: &[u8],
    k: usize,
    b: usize,
    heads: &Heads,
    chain: &Chain,
    weights: &mut Weights,
    out: &mut [u8],
    initial: Kept,
) -> Kept
    requires { CanWrite model.file.now model.states model.transitions blocks.now k b heads.now chain.now weights.old out.old initial }
    ensures { Wrote model.entry.file.now blocks.now b weights.new out.old out.new result }
{
    let start = initial.size;
    let mut kept = initial;
    let mut r = heads[b] as usize;
    while r < model.transitions {
        kept = keep_of_block(model, r, blocks, k, b, weights, out, start, kept);
        r = chain[r] as usize;
    }
    kept
}

// The transitions of the merged model, by block, from the start of a buffer on.
pub fn write_transitions(model: SoundModel, blocks: &[u8], k: usize, out: &mut [u8]) -> Kept
    requires { BlocksBelow model.states k blocks.now × (records ≤ length out.old) }
    ensures { WroteAll model.entry.file.now blocks.now k out.old out.new result }
{
    let mut heads = [model.transitions as u16; STATES];
    let mut chain = [0; TRANSITIONS];
    chain_by_block(model, blocks, k, &mut heads, &mut chain);
    let mut weights = merged_transition::no_weights();
    let mut kept = Kept { count: 0, size: 0 };
    for block in 0..k {
        kept = write_block(
            model,
            blocks,
            k,
            block,
            &heads,
            &chain,
            &mut weights,
            out,
            kept,
        );
    }
    kept
}
