// The head and the labels of the model file of document 01, judged in the order of the table 'Refused, and where'.
#![tactic(auto)]

ghost use Rattle.std.specs.Prelude.{◌+◌, ◌≤◌, ◌<◌, length, ◌≡◌};
ghost use Rattle.rules.specs.definitions.Limits.{limits};
ghost use Rattle.rules.specs.definitions.Reading.{head_fault, label_fault, labels_fault, range_fault};
ghost use Rattle.fault.specs.Faults.{fault_in, Placed};
ghost use Rattle.model_head.specs.Head.{HeadAt};

use fault::{Fault, Refusal};
use field::Cursor;
use limits::{ACTIONS, LABEL, STATES, TRANSITIONS};

const HEAD_MARK: usize = 0x5041;

const LABELS_MARK: usize = 0x4C42;

// The fields of the head.
#[derive(Clone, Copy)]
pub struct Head {
    pub states: usize,
    pub actions: usize,
    pub transitions: usize,
}

pub fn head_at(s: &[u8]) -> Head
    requires { 6 ≤ length s.now }
    ensures { HeadAt s.now result }
{
    let states = Cursor::new(2).byte(s);
    let actions = states.next.byte(s);
    let transitions = actions.next.pair(s);
    Head {
        states: states.value,
        actions: actions.value,
        transitions: transitions.value,
    }
}

fn range_fault(n: usize, m: usize, count: usize) -> Result<(), Fault>
    ensures { fault_in result ≡ range_fault limits n m count }
{
    if n == 0 {
        return Err(Refusal::ModelHead.fault());
    }
    if STATES < n {
        return Err(Refusal::ModelHead.fault());
    }
    if m == 0 {
        return Err(Refusal::ModelHead.fault());
    }
    if ACTIONS < m {
        return Err(Refusal::ModelHead.fault());
    }
    if TRANSITIONS < count {
        return Err(Refusal::ModelHead.fault());
    }
    Ok(())
}

// Refusals 1 to 3 of the head, which begins the file.
pub fn head_fault(s: &[u8]) -> Result<(), Fault>
    ensures { Placed (head_fault limits s.now) 0 result }
{
    record::open_model(s, 0, HEAD_MARK, 6)?;
    let head = head_at(s);
    fault::at_place(range_fault(head.states, head.actions, head.transitions), 0)
}

fn label_fault(s: &[u8], n: usize) -> Result<(), Fault>
    requires { 8 + n ≤ length s.now }
    ensures { fault_in result ≡ label_fault limits s.now n 8 }
{
    for label in &s[8..8 + n] {
        if LABEL < *label as usize {
            return Err(Refusal::Label.fault());
        }
    }
    Ok(())
}

// Refusals 1, 2 and 4 of the n labels, which follow the head.
pub fn labels_fault(s: &[u8], n: usize) -> Result<(), Fault>
    requires { (6 ≤ length s.now) × (n < 256) }
    ensures { Placed (labels_fault limits s.now n) 6 result }
{
    record::open_model(s, 6, LABELS_MARK, 2 + n)?;
    fault::at_place(label_fault(s, n), 6)
}
