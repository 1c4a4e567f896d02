// The records of the moves from one state (s,e) of a composition, appended to a lent buffer from the two models' bytes. Each function hands
// back the place after what it wrote.
#![tactic(auto)]

ghost use Rattle.std.specs.Prelude.{◌<◌};
ghost use Rattle.writer.specs.Appends.{Appends};
ghost use Rattle.transition.specs.Known.{automaton_in};
ghost use Rattle.composed_states.specs.Records.{partner_record, partner_records, left_move_records, left_records, state_records};
ghost use Rattle.composed_states.specs.Needs.{IsRun, CanWriteMoves, CanWritePartner, CanWritePartners};
ghost use Rattle.composed_states.specs.Own.{own_record, own_records, CanWriteOwn, CanWriteOwns};

use composed_size::Side;

// The transitions that leave a state: from `first` on, and `past` is the one after them.
#[derive(Clone, Copy)]
pub struct Run {
    pub state: usize,
    pub first: usize,
    pub past: usize,
}

// The left's transition q, of a shared action, together with the right's r, where that has its action.
fn write_partner(
    left: Side,
    q: usize,
    action: usize,
    right: Side,
    r: usize,
    out: &mut [u8],
    at: usize,
) -> usize
    requires { CanWritePartner left q action right r out.old at }
    ensures { Appends (partner_record left.entry.file.now right.entry.file.now q ((automaton_in right.entry.file.now).source r) r) at out.old out.new result }
{
    if transition::fields_of(right.file, right.places, r).action != action {
        return at;
    }
    composed_moves::write_together(
        left.file,
        left.places,
        q,
        right.file,
        right.places,
        r,
        right.model.states,
        out,
        at,
    )
}

// It with each partner that leaves a state.
fn write_partners(
    left: Side,
    q: usize,
    action: usize,
    right: Side,
    run: Run,
    out: &mut [u8],
    at: usize,
) -> usize
    requires { CanWritePartners left q action right run out.old at }
    ensures { Appends (partner_records left.entry.file.now right.entry.file.now q run.state) at out.old out.new result }
{
    let mut next = at;
    for partner in run.first..run.past {
        next = write_partner(left, q, action, right, partner, out, next);
    }
    next
}

// The left's transition q at a state of the right: with its partners, or alone.
fn write_left_move(left: Side, q: usize, right: Side, run: Run, out: &mut [u8], at: usize) -> usize
    requires { CanWriteMoves left right (left_move_records left.file.now right.file.now ((automaton_in left.file.now).source q) run.state q) out.old at × (q < left.model.transitions) × IsRun (automaton_in right.file.now) run }
    ensures { Appends (left_move_records left.entry.file.now right.entry.file.now ((automaton_in left.entry.file.now).source q) run.state q) at out.old out.new result }
{
    let action = transition::fields_of(left.file, left.places, q).action;
    if composed_size::is_shared(left.model.actions, right.model.actions, action) {
        return write_partners(left, q, action, right, run, out, at);
    }
    composed_moves::write_left(
        left.file,
        left.places,
        q,
        right.model.states,
        run.state,
        out,
        at,
    )
}

// The left's moves from a state of each.
fn write_left_moves(
    left: Side,
    from: Run,
    right: Side,
    run: Run,
    out: &mut [u8],
    at: usize,
) -> usize
    requires { CanWriteMoves left right (left_records left.file.now right.file.now from.state run.state) out.old at × IsRun (automaton_in left.file.now) from × IsRun (automaton_in right.file.now) run }
    ensures { Appends (left_records left.entry.file.now right.entry.file.now from.state run.state) at out.old out.new result }
{
    let mut next = at;
    for q in from.first..from.past {
        next = write_left_move(left, q, right, run, out, next);
    }
    next
}

// The right's transition r, where it is its own, at the state s of a left of so many actions.
fn write_own_move(
    actions: usize,
    s: usize,
    right: Side,
    r: usize,
    out: &mut [u8],
    at: usize,
) -> usize
    requires { CanWriteOwn actions s right r out.old at }
    ensures { Appends (own_record actions right.entry.file.now s r) at out.old out.new result }
{
    let action = transition::fields_of(right.file, right.places, r).action;
    if composed_size::is_shared(actions, right.model.actions, action) {
        return at;
    }
    composed_moves::write_right(right.file, right.places, r, right.model.states, s, out, at)
}

// The right's own moves from a state.
fn write_own_moves(
    actions: usize,
    s: usize,
    right: Side,
    run: Run,
    out: &mut [u8],
    at: usize,
) -> usize
    requires { CanWriteOwns actions s right run out.old at }
    ensures { Appends (own_records actions right.entry.file.now s run.state) at out.old out.new result }
{
    let mut next = at;
    for r in run.first..run.past {
        next = write_own_move(actions, s, right, r, out, next);
    }
    next
}

// The moves from a state (s,e): the left's, and then the right's own.
pub fn write_state(left: Side, from: Run, right: Side, run: Run, out: &mut [u8], at: usize) -> usize
    requires { CanWriteMoves left right (state_records left.file.now right.file.now from.state run.state) out.old at × IsRun (automaton_in left.file.now) from × IsRun (automaton_in right.file.now) run }
    ensures { Appends (state_records left.entry.file.now right.entry.file.now from.state run.state) at out.old out.new result }
{
    let own = write_left_moves(left, from, right, run, out, at);
    write_own_moves(left.model.actions, from.state, right, run, out, own)
}
