// The transition records of the moves of a composition, appended to a lent buffer from the two models' bytes. Each function hands back the
// place after what it wrote.
#![tactic(auto)]

ghost use Rattle.writer.specs.Appends.{Appends};
ghost use Rattle.composed_moves.specs.MoveRecords.{left_record, right_record, together_record, pairs_at, CanWriteLeft, CanWriteRight, CanWriteTogether, CanWritePairs};

use field::Cursor;
use model::Places;

// The left's transition q alone, while the right, of n states, stands still at e.
pub fn write_left(
    left: &[u8],
    places: &Places,
    q: usize,
    n: usize,
    e: usize,
    out: &mut [u8],
    at: usize,
) -> usize
    requires { CanWriteLeft left.now places.now q n e out.old at }
    ensures { Appends (left_record left.now n q e) at out.old out.new result }
{
    let t = transition::fields_of(left, places, q);
    placed_entries::write_record(left, t, t.source * n + e, n, e, out, at)
}

// The right's transition r alone, while the left stands still at s.
pub fn write_right(
    right: &[u8],
    places: &Places,
    r: usize,
    n: usize,
    s: usize,
    out: &mut [u8],
    at: usize,
) -> usize
    requires { CanWriteRight right.now places.now r n s out.old at }
    ensures { Appends (right_record right.now n s r) at out.old out.new result }
{
    let u = transition::fields_of(right, places, r);
    placed_entries::write_record(right, u, s * n + u.source, 1, s * n, out, at)
}

// For each of so many entries of the left all of the right's.
fn write_pairs(
    left: &[u8],
    count: usize,
    first: Cursor,
    n: usize,
    right: &[u8],
    right_count: usize,
    right_first: Cursor,
    out: &mut [u8],
    at: usize,
) -> usize
    requires { CanWritePairs n left.now count first.at right.now right_count right_first.at out.old at }
    ensures { Appends (pairs_at n left.now count first.at right.now right_count right_first.at) at out.old out.new result }
{
    let mut next = at;
    for entry in transition::entries(left, first, count) {
        next = placed_entries::write_entries(
            right,
            right_count,
            right_first,
            1,
            entry.state * n,
            entry.weight,
            out,
            next,
        );
    }
    next
}

// The left's transition q and the right's r together.
pub fn write_together(
    left: &[u8],
    left_places: &Places,
    q: usize,
    right: &[u8],
    right_places: &Places,
    r: usize,
    n: usize,
    out: &mut [u8],
    at: usize,
) -> usize
    requires { CanWriteTogether left.now left_places.now q right.now right_places.now r n out.old at }
    ensures { Appends (together_record left.now right.now n q r) at out.old out.new result }
{
    let t = transition::fields_of(left, left_places, q);
    let u = transition::fields_of(right, right_places, r);
    let next = writer::fixed(
        out,
        at,
        t.source * n + u.source,
        t.action,
        t.denominator * u.denominator,
        t.count * u.count,
    );
    write_pairs(
        left, t.count, t.entries, n, right, u.count, u.entries, out, next,
    )
}
