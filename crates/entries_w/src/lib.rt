// The w entries of a flow judged, and taken into its equations.
#![tactic(auto)]

ghost use Rattle.std.specs.Prelude.{◌≤◌, ◌<◌};
ghost use Rattle.rules.specs.definitions.Limits.{limits};
ghost use Rattle.entries_w.specs.Matching.{TellsW, CanTakeWs, TookWs};

use field::Cursor;
use pairs::Rows;
use remainders::Remainders;

// What good w entries come to: how many remainders of each table are not zero then, and the cursor past them.
#[derive(Clone, Copy)]
pub struct Matched {
    pub nonzero: usize,
    pub target: usize,
    pub next: Cursor,
}

// A w entry is in order, its states are there and related, and it is not zero. Which test comes first is free.
fn stands(n: usize, rows: &Rows, lowest: usize, v: usize, u: usize, w: usize) -> bool
    requires { (n ≤ limits.states) × (v < 256) × (u < 256) }
    ensures { TellsW n rows.now lowest v u w result }
{
    v < n && u < n && w != 0 && lowest <= v * 256 + u && pairs::related(rows, v, u)
}

// Each good w entry taken into the equations at v, whose remainders begin at `layer`, and at u, up to the first that is not: what all
// of them come to, where they are good.
pub fn take_ws(
    cert: &[u8],
    first: Cursor,
    entries: usize,
    n: usize,
    rows: &Rows,
    d: usize,
    layer: usize,
    remainders: &mut Remainders,
    initial: usize,
    target: &mut Remainders,
    asked: usize,
) -> Option<Matched>
    requires { CanTakeWs cert.now first.at entries n d layer remainders.old initial target.old asked }
    ensures { TookWs cert.now first.at entries n rows.now d layer remainders.old remainders.new target.old target.new result }
{
    let mut place = first;
    let mut lowest = 0;
    let mut nonzero = initial;
    let mut target_nonzero = asked;
    for _ in 0..entries {
        let from = place.byte(cert);
        let to = from.next.byte(cert);
        let amount = to.next.quad(cert);
        let v = from.value;
        let u = to.value;
        let w = amount.value;
        if !stands(n, rows, lowest, v, u, w) {
            return None;
        }
        nonzero = remainders::take(remainders, layer + v, 1, w, nonzero);
        target_nonzero = remainders::give(target, u, d, w, target_nonzero);
        lowest = v * 256 + u + 1;
        place = amount.next;
    }
    Some(Matched {
        nonzero,
        target: target_nonzero,
        next: place,
    })
}
