// What the remainders of a flow's entries say of its equations.
#![tactic(auto)]

ghost use Rattle.std.specs.Prelude.{◌+◌, ◌≤◌, ◌≡◌};
ghost use Rattle.rules.specs.definitions.Limits.{limits};
ghost use Rattle.limits.specs.Sizes as sizes;
ghost use Rattle.fault.specs.Faults.{number_of, fault_in};
ghost use Rattle.equations.specs.Differences.{remainder_break, verdict_of};

use fault::{Fault, Refusal};
use remainders::Remainders;
use rule_kind::{AFTER_MOVE, BEFORE_MOVE};

// The first of n remainders that is not zero, as a refusal at its state; they begin at `first`.
fn first_break(
    refusal: Refusal,
    remainders: &Remainders,
    first: usize,
    n: usize,
) -> Result<(), Fault>
    requires { (n ≤ limits.states) × (first + n ≤ sizes.remainders) }
    ensures { fault_in result ≡ remainder_break (number_of refusal) remainders.now first n 0 }
{
    for v in 0..n {
        let remainder = remainders[first + v];
        if remainder != 0 {
            return Err(refusal.broken(v, remainder));
        }
    }
    Ok(())
}

// 20 and 21, of n states, by how many remainders of each table are not zero; then 30, by what was paid and what was owed. The state is looked
// for only where one is: a flow that passes costs nothing more. It is always found; that the number follows from the counts needs no such
// argument.
pub fn verdict(
    n: usize,
    remainders: &Remainders,
    nonzero: usize,
    target: &Remainders,
    asked: usize,
    paid: usize,
    owed: usize,
) -> Result<(), Fault>
    requires { n ≤ limits.states }
    ensures { fault_in result ≡ verdict_of n remainders.now nonzero target.now asked paid owed }
{
    if nonzero != 0 {
        first_break(Refusal::FlowBalance, remainders, BEFORE_MOVE, n)?;
        first_break(Refusal::FlowBalance, remainders, AFTER_MOVE, n)?;
        return Err(Refusal::FlowBalance.fault());
    }
    if asked != 0 {
        first_break(Refusal::FlowTarget, target, 0, n)?;
        return Err(Refusal::FlowTarget.fault());
    }
    if paid != owed {
        return Err(Refusal::FlowCost.fault());
    }
    Ok(())
}
