// The limits since document 02, K7, and the sizes of tables that follow from them.
#![tactic(auto)]

pub const STATES: usize = 128;

pub const ACTIONS: usize = 32;

pub const TRANSITIONS: usize = 256;

pub const ENTRIES: usize = 2048;

pub const REFUTATIONS: usize = 8128;

pub const LABEL: usize = 63;

// The highest cost of a transition (document 02, K6).
pub const COST: usize = 63;

// A place for each transition, and one for where the records end.
pub const PLACES: usize = TRANSITIONS + 1;

// A remainder for each state before a flow's move, and one after it.
pub const REMAINDERS: usize = 2 * STATES;

// The words of the related pairs: two for the row of each state.
pub const ROW_WORDS: usize = 2 * STATES;

// The bytes of the transition records of a sound model, at most.
pub const RECORDS: usize = 7 * TRANSITIONS + 3 * ENTRIES;

// Which terms a model's transitions may be written in (document 02, K10).
#[derive(Clone, Copy)]
pub enum Terms {
    Any,
    Lowest,
}
