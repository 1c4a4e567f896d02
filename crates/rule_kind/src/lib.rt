// The step rule that a pair is judged by: all that the code asks of it, by its kind and by the challenger, which is told by its action.
#![tactic(auto)]

ghost use Rattle.std.specs.Prelude.{◌+◌, ◌*◌, ◌≤◌, length, ◌≡◌};
ghost use Rattle.rules.specs.definitions.Limits.{limits};
ghost use Rattle.rule_kind.specs.Kinds.{is_strong, has_costs, mark_of, CostAsked, CostIs};
ghost use Rattle.rule_kind.specs.Steps.{TellsLayer, own_transition, strong_question, in_question_by, arrival_of, departure_of, has_move, w_departure_of, further_prices, first_prices, prices_by, IsFurther, weak_condition, strong_condition, condition_by};

use field::Cursor;
use limits::STATES;
use model::Places;

#[derive(Clone, Copy)]
pub enum Kind {
    // Document 01's step rule.
    Plain,
    // The rule with costs (document 02, K6). They stand behind the transitions of the model.
    Costs,
    // The strong rule (document 02, K14): no internal step is skipped.
    Strong,
}

// Whether no internal step is skipped.
fn is_strong(kind: Kind) -> bool
    ensures { result ≡ is_strong kind }
{
    match kind {
        Kind::Plain => false,
        Kind::Costs => false,
        Kind::Strong => true,
    }
}

// Whether transitions have costs.
pub fn has_costs(kind: Kind) -> bool
    ensures { result ≡ has_costs kind }
{
    match kind {
        Kind::Plain => false,
        Kind::Costs => true,
        Kind::Strong => false,
    }
}

// The mark of a certificate's head.
pub fn mark(kind: Kind) -> usize
    ensures { result ≡ mark_of kind }
{
    match kind {
        Kind::Plain => 0x4354,
        Kind::Costs => 0x4343,
        Kind::Strong => 0x4353,
    }
}

// Which actions may stand in which layer (document 02, K5). Each case is a group of constraints in definition 2 of source document 003: tr is
// the entry's transition, from v to v' by ρ, a the challenger's action, and τ is action 0. 003 prints ρ(v'_a) in the last two, where 001 has
// ρ(v').
fn in_weak_question(challenger: usize, layer: usize, action: usize) -> bool
    ensures { TellsLayer challenger layer action result }
{
    match challenger {
        // An internal challenger: 'without the last two groups of constraints'.
        0 => match layer {
            0 => action == 0, // f(v^tr,v') - ρ(v')f(v,v^tr) = 0, for each tr = v -τ-> ρ
            1 => false, // without f(v_a^tr,v'_a) - ρ(v')f(v,v_a^tr) = 0
            2 => false, // without f(v_a^tr,v'_a) - ρ(v')f(v_a,v_a^tr) = 0
            _ => false, // no such layer
        },
        // An external one.
        _ => match layer {
            0 => action == 0, // before the move: f(v^tr,v') - ρ(v')f(v,v^tr) = 0, for each tr = v -τ-> ρ
            1 => action == challenger, // the move: f(v_a^tr,v'_a) - ρ(v')f(v,v_a^tr) = 0, for each tr = v -a-> ρ
            2 => action == 0, // after the move: f(v_a^tr,v'_a) - ρ(v')f(v_a,v_a^tr) = 0, for each tr = v -τ-> ρ
            _ => false, // no such layer either
        },
    }
}

// Document 02, K14: 'transitions of t itself with the challenger's action, internal included'.
fn is_own(challenger: usize, t: usize, source: usize, action: usize) -> bool
    ensures { result ≡ own_transition challenger t source action }
{
    if source != t {
        return false;
    }
    action == challenger
}

// 'Flows have entries of layer 1 only, over' those.
fn in_strong_question(
    challenger: usize,
    t: usize,
    layer: usize,
    source: usize,
    action: usize,
) -> bool
    ensures { result ≡ strong_question challenger t layer source action }
{
    if layer != 1 {
        return false;
    }
    is_own(challenger, t, source, action)
}

// Whether an entry of a layer may have a transition with this source and action, against the defender t.
pub fn in_question(
    kind: Kind,
    challenger: usize,
    t: usize,
    layer: usize,
    source: usize,
    action: usize,
) -> bool
    ensures { result ≡ in_question_by kind challenger t layer source action }
{
    if is_strong(kind) {
        return in_strong_question(challenger, t, layer, source, action);
    }
    in_weak_question(challenger, layer, action)
}

// Where the remainders of a flow's equations begin: those before the move, or of a challenger without one, and those after it.
pub const BEFORE_MOVE: usize = 0;

pub const AFTER_MOVE: usize = STATES;

// Where the remainders begin that a layer leads to.
pub fn arrival(layer: usize) -> usize
    ensures { result ≡ arrival_of layer }
{
    if layer == 0 {
        return BEFORE_MOVE;
    }
    AFTER_MOVE
}

// Where the remainders begin that a layer leaves.
pub fn departure(layer: usize) -> usize
    ensures { result ≡ departure_of layer }
{
    if layer == 2 {
        return AFTER_MOVE;
    }
    BEFORE_MOVE
}

// Whether there is a move: an internal challenger has none, but where no step is skipped.
pub fn has_move(kind: Kind, challenger: usize) -> bool
    ensures { result ≡ has_move kind challenger }
{
    if is_strong(kind) {
        return true;
    }
    challenger != 0
}

// Where the remainders begin that w leaves: after the move, where there is one.
pub fn w_departure(kind: Kind, challenger: usize) -> usize
    ensures { result ≡ w_departure_of kind challenger }
{
    if !has_move(kind, challenger) {
        return BEFORE_MOVE;
    }
    AFTER_MOVE
}

// How many prices stand behind those of the states.
fn further_prices(kind: Kind) -> usize
    ensures { result ≡ further_prices kind }
{
    match kind {
        Kind::Plain => 0,
        Kind::Costs => 1,
        Kind::Strong => 0,
    }
}

// How many prices A there are: one for each state, or for t alone.
pub fn first_prices(kind: Kind, n: usize) -> usize
    ensures { result ≡ first_prices kind n }
{
    if is_strong(kind) {
        return 1;
    }
    n
}

// How many prices a refutation has: A, B for each state if there is a move, G for each state, and those behind them.
pub fn price_count(kind: Kind, n: usize, challenger: usize) -> usize
    requires { n ≤ limits.states }
    ensures { result ≡ prices_by kind n challenger }
{
    let first = first_prices(kind, n);
    let further = further_prices(kind);
    if has_move(kind, challenger) {
        return first + 2 * n + further;
    }
    first + n + further
}

// The price L at a place, 0 where the rule has none.
pub fn further_price(kind: Kind, cert: &[u8], at: usize) -> i64
    requires { at + 4 * further_prices kind ≤ length cert.now }
    ensures { IsFurther kind cert.now at result }
{
    match kind {
        Kind::Plain => 0,
        Kind::Costs => Cursor::new(at).price(cert).value,
        Kind::Strong => 0,
    }
}

// Which price condition a transition has.
#[derive(Clone, Copy)]
pub enum Condition {
    // From A to B, over the move. An internal challenger has no move: from A to A.
    Across,
    // From A to A before the move, and from B to B after it.
    Within,
    // None.
    Unasked,
}

// Document 01's: 'for each transition with its action', and 'for each internal transition'.
fn weak_condition(challenger: usize, action: usize) -> Condition
    ensures { result ≡ weak_condition challenger action }
{
    if action == challenger {
        return Condition::Across;
    }
    if action == 0 {
        return Condition::Within;
    }
    Condition::Unasked
}

// Document 02, K14: 'for each such transition', 'and no other price condition'.
fn strong_condition(challenger: usize, t: usize, source: usize, action: usize) -> Condition
    ensures { result ≡ strong_condition challenger t source action }
{
    if is_own(challenger, t, source, action) {
        return Condition::Across;
    }
    Condition::Unasked
}

// That of a transition with this source and action, against the defender t.
pub fn condition_of(
    kind: Kind,
    challenger: usize,
    t: usize,
    source: usize,
    action: usize,
) -> Condition
    ensures { result ≡ condition_by kind challenger t source action }
{
    if is_strong(kind) {
        return strong_condition(challenger, t, source, action);
    }
    weak_condition(challenger, action)
}

// The cost of the transition r, 0 where the rule has none.
pub fn cost_of(kind: Kind, s: &[u8], count: usize, places: &Places, r: usize) -> usize
    requires { CostAsked kind s.now count places.now r }
    ensures { CostIs kind s.now r result }
{
    match kind {
        Kind::Plain => 0,
        Kind::Costs => {
            let end = places[count];
            Cursor::new(end + 2 + r).byte(s).value
        }
        Kind::Strong => 0,
    }
}
