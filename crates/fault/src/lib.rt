// What is wrong: a refusal of the papers by its name, and a fault, which part hands to part from the leaf to the answer.
#![tactic(auto)]

ghost use Rattle.std.specs.Prelude.{◌<◌, ◌≡◌, Result};
ghost use Rattle.rules.specs.definitions.Faults as rules;
ghost use Rattle.fault.specs.Faults.{number_of, fault_of, PlacedAt, AtPlace};

pub mod numbered;

// The refusals of the papers, each with its number.
#[derive(Clone, Copy)]
pub enum Refusal {
    ModelEnds = 1,
    ModelMark = 2,
    ModelHead = 3,
    Label = 4,
    TransitionFields = 5,
    TransitionEntries = 6,
    WeightSum = 7,
    EntryCount = 8,
    ModelBytesLeft = 9,
    BlockRoom = 10,
    CertificateEnds = 11,
    CertificateMark = 12,
    RefutationCount = 13,
    RefutationPair = 14,
    PriceCondition = 15,
    LastCondition = 16,
    BlockNumbers = 17,
    BlockPairs = 18,
    FlowEntry = 19,
    FlowBalance = 20,
    FlowTarget = 21,
    CertificateBytesLeft = 22,
    MergedRoom = 23,
    NoState = 24,
    JoinedLimits = 25,
    JoinedRoom = 26,
    NotInPart = 27,
    SheetRoom = 28,
    Cost = 29,
    FlowCost = 30,
    TextLine = 31,
    TextSum = 32,
    TextRoom = 33,
    Terms = 34,
    LargeK = 35,
    RewrittenRoom = 36,
    ComposedLimits = 37,
    ComposedRoom = 38,
    SentenceRoom = 39,
    LargestLimits = 40,
    LargestRoom = 41,
}

#[derive(Clone, Copy)]
pub struct Fault {
    pub refusal: Refusal,
    // The byte of its file where the record at fault begins; for 29, the cost.
    pub place: usize,
    // The state at which an equation or the last price condition breaks, and its left side less its right; 0 for every other refusal.
    pub state: u32,
    pub remainder: i64,
}

impl Refusal {
    pub fn number(self) -> u32
        ensures { result ≡ number_of self }
    {
        self as u32
    }

    // The fault of a record that puts its place in later.
    pub fn fault(self) -> Fault
        ensures { fault_of result ≡ rules.fault (number_of self) }
    {
        self.broken(0, 0)
    }

    // One that names the state at which an equation or the last price condition breaks, and by how much it is off.
    pub fn broken(self, state: usize, remainder: i64) -> Fault
        requires { state < 256 }
        ensures { fault_of result ≡ rules.fault_by (number_of self) state remainder }
    {
        Fault {
            refusal: self,
            place: 0,
            state: state as u32,
            remainder,
        }
    }
}

impl Fault {
    // The same, with its place.
    pub fn at(self, place: usize) -> Fault
        ensures { PlacedAt (fault_of self) place result }
    {
        Fault {
            refusal: self.refusal,
            place,
            state: self.state,
            remainder: self.remainder,
        }
    }
}

// What was found in the record at a place: its fault is placed there.
pub fn at_place<T: Copy>(found: Result<T, Fault>, place: usize) -> Result<T, Fault>
    ensures { AtPlace found place result }
{
    match found {
        Ok(value) => Ok(value),
        Err(fault) => Err(fault.at(place)),
    }
}
