// The record of a choice that has ended.
#![tactic(auto)]

ghost use Rattle.std.specs.Prelude.{◌+◌, ◌*◌, ◌≤◌, map, length};
ghost use Rattle.rules.specs.definitions.Model.{entries_bytes, transition_bytes};
ghost use Rattle.prism.specs.definitions.HeldModel.{entry_over};
ghost use Rattle.writer.specs.Appends.{Appends};
ghost use Rattle.prism_choice.specs.Targets.{targets_in, over_divisor, TargetsFit, CanWriteChoice};

use limits::STATES;

// A target of a choice, with its ten-thousandths.
#[derive(Clone, Copy)]
pub struct Target {
    pub state: usize,
    pub parts: usize,
}

pub type Targets = [Target; STATES];

// The entries of a choice, their weights divided, appended.
fn write_targets(
    targets: &Targets,
    count: usize,
    divisor: usize,
    records: &mut [u8],
    at: usize,
) -> usize
    requires { TargetsFit targets.now count × (1 ≤ divisor) × (at + 3 * count ≤ length records.old) }
    ensures { Appends (entries_bytes (map (entry_over divisor) (targets_in targets.now count))) at records.old records.new result }
{
    let mut next = at;
    for target in &targets[..count] {
        next = writer::entry(records, next, target.state, target.parts / divisor);
    }
    next
}

// The record of a choice with these targets, their ten-thousandths divided, appended.
pub fn write_choice(
    targets: &Targets,
    count: usize,
    source: usize,
    action: usize,
    divisor: usize,
    records: &mut [u8],
    at: usize,
) -> usize
    requires { CanWriteChoice targets.now count source action divisor records.old at }
    ensures { Appends (transition_bytes (over_divisor targets.now count source action divisor)) at records.old records.new result }
{
    let entries = writer::fixed(records, at, source, action, 10000 / divisor, count);
    write_targets(targets, count, divisor, records, entries)
}
