// A fault by its number, for callers that have a number and no name for it.
ghost use Rattle.std.specs.Prelude.{◌<◌, ◌≡◌};
ghost use Rattle.rules.specs.definitions.Faults as rules;
ghost use Rattle.fault.specs.Numbers.{numbered_of, SameFault, NumberedAt};

use super::Fault;

// Any number, 0 for nothing wrong.
#[derive(Clone, Copy)]
pub struct Numbered {
    pub number: u32,
    pub place: usize,
    pub state: u32,
    pub remainder: i64,
}

// A refusal, whose record knows its place.
pub fn refusal(number: u32) -> Numbered
    ensures { numbered_of result ≡ rules.fault number }
{
    broken(number, 0, 0)
}

// One that names the state at which an equation or the last price condition breaks, and by how much it is off.
pub fn broken(number: u32, state: usize, remainder: i64) -> Numbered
    requires { state < 256 }
    ensures { numbered_of result ≡ rules.fault_by number state remainder }
{
    Numbered {
        number,
        place: 0,
        state: state as u32,
        remainder,
    }
}

impl Numbered {
    // A fault with its number in place of its name.
    pub fn of(fault: Fault) -> Numbered
        ensures { SameFault fault result }
    {
        Numbered {
            number: fault.refusal.number(),
            place: fault.place,
            state: fault.state,
            remainder: fault.remainder,
        }
    }

    // The same, with its place.
    pub fn at(self, place: usize) -> Numbered
        ensures { NumberedAt (numbered_of self) place result }
    {
        Numbered {
            number: self.number,
            place,
            state: self.state,
            remainder: self.remainder,
        }
    }
}
