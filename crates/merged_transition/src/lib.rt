// One transition merged by blocks: its weights added up by target block, and its record appended to a buffer in lowest terms.
#![tactic(auto)]

ghost use Rattle.std.specs.Prelude.{◌+◌, ◌/◌, ◌≤◌, ◌<◌, ◌≡◌, length, get_or};
ghost use Rattle.bisimulation.specs.definitions.Choice.{if_same};
ghost use Rattle.numbers.specs.definitions.Divisor as numbers;
ghost use Rattle.rules.specs.definitions.Limits.{limits};
ghost use Rattle.transition.specs.Known.{entries_of};
ghost use Rattle.merged_transition.specs.MergedTransition.{NoWeights, CanMerge, Merged};
ghost use Rattle.merged_transition.specs.Weights.{weights_by_block, CanAdd, WeightsOf, CanDivide, CanWriteEntry, WroteEntry, CanWriteEntries, WroteEntries};

use limits::STATES;
use sound_model::SoundModel;

// The weight to each block; all zero between transitions.
pub type Weights = [u32; STATES];

pub fn no_weights() -> Weights
    ensures { NoWeights result }
{
    [0; STATES]
}

// The block of a state.
pub fn block_of(blocks: &[u8], v: usize) -> usize
    requires { v < length blocks.now }
    ensures { (result ≡ get_or blocks.now v 0) × (result < 256) }
{
    blocks[v] as usize
}

// How many blocks have a weight, after the weight of one of them has grown.
fn counted(count: usize, before: usize, after: usize) -> usize
    requires { (count ≤ limits.states) × (before ≤ after) }
    ensures { result + if_same before 0 0 1 ≡ count + if_same after 0 0 1 }
{
    if before != 0 {
        return count;
    }
    if after == 0 {
        return count;
    }
    count + 1
}

// The weights of the transition r added up by target block. Hands back how many blocks have one.
fn add_weights(model: SoundModel, r: usize, blocks: &[u8], weights: &mut Weights) -> usize
    requires { CanAdd model.file.now model.transitions r blocks.now weights.old }
    ensures { WeightsOf blocks.now (entries_of model.entry.file.now r) weights.new result }
{
    let t = model.fields(r);
    let mut place = t.entries;
    let mut count = 0;
    for _ in 0..t.count {
        let entry = transition::entry_at(model.file, place);
        let b = block_of(blocks, entry.state);
        let weight = weights[b] as usize;
        let sum = weight + entry.weight;
        count = counted(count, weight, sum);
        weights[b] = sum as u32;
        place = entry.next;
    }
    count
}

// The greatest common divisor of the weights of the blocks that the transition r leads to.
fn common_divisor(model: SoundModel, r: usize, blocks: &[u8], weights: &Weights) -> usize
    requires { CanDivide model.file.now model.transitions r blocks.now weights.now }
    ensures { result ≡ numbers.divisor_of 0 (weights_by_block blocks.now weights.now (entries_of model.entry.file.now r)) }
{
    let t = model.fields(r);
    let mut place = t.entries;
    let mut g = 0;
    for _ in 0..t.count {
        let entry = transition::entry_at(model.file, place);
        let b = block_of(blocks, entry.state);
        let weight = weights[b] as usize;
        g = transition_terms::with_weight(g, weight);
        if g == 1 {
            return 1;
        }
        place = entry.next;
    }
    g
}

// A number divided by a divisor, which mostly is 1.
fn divided(x: usize, g: usize) -> usize
    requires { 0 < g }
    ensures { result ≡ x / g }
{
    if g == 1 {
        return x;
    }
    x / g
}

// The entry of a block with its weight divided by g, if it has a weight, which is zero then.
fn write_entry(weights: &mut Weights, b: usize, g: usize, out: &mut [u8], at: usize) -> usize
    requires { CanWriteEntry weights.old b g out.old at }
    ensures { WroteEntry g b weights.old weights.new at out.old out.new result }
{
    let weight = weights[b] as usize;
    if weight == 0 {
        return at;
    }
    weights[b] = 0;
    writer::entry(out, at, b, divided(weight, g))
}

// The entries of the first k blocks with their weights divided by g, of which so many have a weight: behind the last of them there is
// nothing to write.
fn write_entries(
    weights: &mut Weights,
    k: usize,
    count: usize,
    g: usize,
    out: &mut [u8],
    at: usize,
) -> usize
    requires { CanWriteEntries weights.old k count g out.old at }
    ensures { WroteEntries g k weights.old weights.new at out.old out.new result }
{
    let end = at + 3 * count;
    let mut next = at;
    for b in 0..k {
        if next == end {
            return next;
        }
        next = write_entry(weights, b, g, out, next);
    }
    next
}

// The record of the transition r, merged by the blocks, of which there are k, in lowest terms. Hands back the place after it.
pub fn write_merged(
    model: SoundModel,
    r: usize,
    blocks: &[u8],
    k: usize,
    weights: &mut Weights,
    out: &mut [u8],
    at: usize,
) -> usize
    requires { CanMerge model.file.now model.transitions r blocks.now k weights.old out.old at }
    ensures { Merged model.entry.file.now r blocks.now weights.new at out.old out.new result }
{
    let t = model.fields(r);
    let source = block_of(blocks, t.source);
    let count = add_weights(model, r, blocks, weights);
    let g = common_divisor(model, r, blocks, weights);
    let d = divided(t.denominator, g);
    let next = writer::fixed(out, at, source, t.action, d, count);
    write_entries(weights, k, count, g, out, next)
}
