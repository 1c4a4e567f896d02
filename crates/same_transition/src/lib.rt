// Whether a transition record is the same as one of those before it. All are in lowest terms, so those that are the same are the same bytes
// from the action on.
#![tactic(auto)]

ghost use Rattle.std.specs.Prelude.{◌+◌, ◌≤◌, length, ◌≡◌};
ghost use Rattle.same_transition.specs.SameTransition.{Stand, IsRepeated, CanPass, Passed, same_bytes};

use field::Cursor;

// The bytes from two places on are the same, so many of them. Compared from the last on: the last weights tell most records that differ.
fn same_bytes(s: &[u8], first: usize, second: usize, count: usize) -> bool
    requires { (first + count ≤ length s.now) × (second + count ≤ length s.now) }
    ensures { result ≡ same_bytes s.now first second count }
{
    for i in (0..count).rev() {
        if s[first + i] != s[second + i] {
            return false;
        }
    }
    true
}

// The place after the record at `place`; `place` itself where that record is the same as the one at `at`, which has so many entries.
// Where most records have as many, their place is known before their entry count is read.
fn pass(s: &[u8], at: usize, count: usize, place: usize) -> usize
    requires { CanPass s.now at count place }
    ensures { Passed s.now at place result }
{
    let entries = 3 * count;
    if Cursor::new(place + 6).byte(s).value != count {
        return transition_record::after_transition(s, place);
    }
    if same_bytes(s, at + 3, place + 3, 4 + entries) {
        return place;
    }
    place + 7 + entries
}

// One of the records from `start` to `at` is the same as the record at `at`.
pub fn is_repeated(s: &[u8], start: usize, at: usize) -> bool
    requires { Stand s.now start at }
    ensures { IsRepeated s.now start at result }
{
    let count = Cursor::new(at + 6).byte(s).value;
    let mut place = start;
    while place < at {
        let next = pass(s, at, count, place);
        if next == place {
            return true;
        }
        place = next;
    }
    false
}
