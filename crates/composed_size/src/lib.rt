// How large the composition of two sound models is, before anything of it is written: its transitions and entries, pair by pair, and its
// highest label.
#![tactic(auto)]

ghost use Rattle.std.specs.Prelude.{◌+◌, ◌*◌, ◌≤◌, ◌<◌, ◌≡◌, length};
ghost use Rattle.bisimulation.specs.definitions.Composed.{highest_label};
ghost use Rattle.rules.specs.definitions.Limits.{limits};
ghost use Rattle.rules.specs.definitions.Reading.{states_of};
ghost use Rattle.transition.specs.Known.{automaton_in};
ghost use Rattle.composition.specs.definitions.Composition.{shared_below};
ghost use Rattle.composition.proofs.argument.ComposedCounts.{longer};
ghost use Rattle.composed_size.specs.Sides.{Side};
ghost use Rattle.composed_size.specs.SideProps.{side-prop};
ghost use Rattle.composed_size.specs.Counted.{pair_most, move_most, all_most, SmallFields};
ghost use Rattle.composed_size.specs.Counted.{AtMost, Counted, CountedAt, SumsCounted, Added};
ghost use Rattle.composed_size.specs.Counted.{PairCounted, PartnersCounted, LeftCounted, RightCounted, MovesCounted};

use model::{Model, Places};
use std::ops::Add;
use transition_record::Fields;

// The highest denominator that its two bytes hold.
const DENOMINATOR: usize = 65535;

// So many transitions and entries, and so many transitions with a denominator that is more than its field holds.
#[derive(Clone, Copy, Default)]
pub struct Sizes {
    pub transitions: usize,
    pub entries: usize,
    pub long: usize,
}

// Two sizes added.
impl Add for Sizes {
    type Output = Sizes;

    ghost can_add = { λ x y. AtMost all_most x × AtMost all_most y };

    ghost add_gives = { λ x y z. Added x y z };

    fn add(self, other: Sizes) -> Sizes {
        Sizes {
            transitions: self.transitions + other.transitions,
            entries: self.entries + other.entries,
            long: self.long + other.long,
        }
    }
}

// A sound model: its file, the numbers of its head, and the places of its transitions.
#[derive(Clone, Copy)]
pub struct Side<'a> {
    pub file: &'a [u8],
    pub model: Model,
    pub places: &'a Places,
    pub ghost known: { Side file.now model places.now } by { side-prop file.now model places.now },
}

// Whether an action is done together by two sides of so many actions each.
pub fn is_shared(left: usize, right: usize, action: usize) -> bool
    ensures { result ≡ shared_below left right action }
{
    action != 0 && action < left && action < right
}

// A transition of so many entries alone, at each of so many states of the other side.
fn count_alone(states: usize, entries: usize) -> Sizes
    requires { (states ≤ limits.states) × (entries < 256) }
    ensures { Counted pair_most states (states * entries) 0 result }
{
    Sizes {
        transitions: states,
        entries: states * entries,
        long: 0,
    }
}

// 1 for a denominator that is more than its field holds.
fn is_long(denominator: usize) -> usize
    ensures { result ≡ longer denominator }
{
    usize::from(DENOMINATOR < denominator)
}

// A transition of the left with one of the right: one move, where that is a partner.
fn count_pair(t: Fields, u: Fields) -> Sizes
    requires { SmallFields t × SmallFields u }
    ensures { PairCounted t u result }
{
    if u.action != t.action {
        return Sizes::default();
    }
    Sizes {
        transitions: 1,
        entries: t.count * u.count,
        long: is_long(t.denominator * u.denominator),
    }
}

// A transition of the left with each partner that the right has for it. Out of line its loop keeps all it reads in registers.
#[inline(never)]
fn count_partners(t: Fields, right: Side) -> Sizes
    requires { SmallFields t }
    ensures { PartnersCounted t right.entry.file.now (SumsCounted right.entry.model.transitions pair_most) result }
{
    let mut sizes = Sizes::default();
    for r in 0..right.model.transitions {
        let u = transition::fields_of(right.file, right.places, r);
        sizes = sizes + count_pair(t, u);
    }
    sizes
}

// The transition q of the left: with its partners, or alone at each state of the right.
fn count_left_move(left: Side, q: usize, right: Side) -> Sizes
    requires { q < left.model.transitions }
    ensures { LeftCounted left.entry.file.now right.entry.file.now (CountedAt q move_most) result }
{
    let t = transition::fields_of(left.file, left.places, q);
    if is_shared(left.model.actions, right.model.actions, t.action) {
        return count_partners(t, right);
    }
    count_alone(right.model.states, t.count)
}

// All of the left's.
fn count_left(left: Side, right: Side) -> Sizes
    ensures { LeftCounted left.entry.file.now right.entry.file.now (SumsCounted left.entry.model.transitions move_most) result }
{
    let mut sizes = Sizes::default();
    for q in 0..left.model.transitions {
        sizes = sizes + count_left_move(left, q, right);
    }
    sizes
}

// The transition r of the right: alone at each state of the left, where it is its own.
fn count_right_move(left: Side, right: Side, r: usize) -> Sizes
    requires { r < right.model.transitions }
    ensures { RightCounted left.entry.model.actions left.entry.model.states right.entry.file.now (CountedAt r pair_most) result }
{
    let u = transition::fields_of(right.file, right.places, r);
    if is_shared(left.model.actions, right.model.actions, u.action) {
        return Sizes::default();
    }
    count_alone(left.model.states, u.count)
}

// All of the right's own.
fn count_right(left: Side, right: Side) -> Sizes
    ensures { RightCounted left.entry.model.actions left.entry.model.states right.entry.file.now (SumsCounted right.entry.model.transitions pair_most) result }
{
    let mut sizes = Sizes::default();
    for r in 0..right.model.transitions {
        sizes = sizes + count_right_move(left, right, r);
    }
    sizes
}

// The sizes of the composition.
pub fn count_moves(left: Side, right: Side) -> Sizes
    ensures { MovesCounted left.entry.file.now right.entry.file.now result }
{
    let moves = count_left(left, right);
    let own = count_right(left, right);
    moves + own
}

// The highest of a model's labels.
pub fn highest_label(s: &[u8], n: usize) -> usize
    requires { (n ≡ states_of s.now) × (8 + n ≤ length s.now) }
    ensures { result ≡ highest_label (automaton_in s.now) }
{
    let mut most: usize = 0;
    for &label in &s[8..8 + n] {
        most = most.max(label as usize);
    }
    most
}
