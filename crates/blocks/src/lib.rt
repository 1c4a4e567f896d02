// The blocks record judged: 11, 12, 17 and 18.
#![tactic(auto)]

ghost use Rattle.std.specs.Prelude.{◌+◌, ◌≤◌, length, ◌≡◌};
ghost use Rattle.bisimulation.specs.definitions.Choice.{if_same};
ghost use Rattle.rules.specs.definitions.Limits.{limits};
ghost use Rattle.rules.specs.definitions.Certificate.{numbered_fault};
ghost use Rattle.fault.specs.Faults.{fault_in};
ghost use Rattle.blocks.specs.Blocks.{BlocksJudged};

use fault::{Fault, Refusal};
use pairs::Rows;

const MARK: usize = 0x424B;

// How many block numbers were seen, after one more.
fn seen_after(seen: usize, block: usize) -> usize
    requires { seen ≤ limits.states }
    ensures { result ≡ if_same block seen (seen + 1) seen }
{
    if block == seen {
        return seen + 1;
    }
    seen
}

// 17, of the n blocks from a place on.
fn numbered_fault(cert: &[u8], at: usize, n: usize) -> Result<(), Fault>
    requires { (at + n ≤ length cert.now) × (n ≤ limits.states) }
    ensures { fault_in result ≡ numbered_fault cert.now n at 0 }
{
    let mut seen = 0;
    for byte in &cert[at..at + n] {
        let block = *byte as usize;
        if seen < block {
            return Err(Refusal::BlockNumbers.fault());
        }
        seen = seen_after(seen, block);
    }
    Ok(())
}

// Refusals 11, 12, 17 and 18 of the blocks record at a place, for n states and the pairs left.
pub fn blocks_fault(cert: &[u8], at: usize, n: usize, rows: &Rows) -> Result<(), Fault>
    requires { (at ≤ length cert.now) × (n ≤ limits.states) }
    ensures { BlocksJudged cert.now at n rows.now result }
{
    record::open_certificate(cert, at, MARK, 2 + n)?;
    let start = at + 2;
    fault::at_place(numbered_fault(cert, start, n), at)?;
    if !classes::agrees(&cert[start..start + n], n, rows) {
        return Err(Refusal::BlockPairs.fault().at(at));
    }
    Ok(())
}
