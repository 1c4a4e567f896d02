// Entries of a model file with their states placed and their weights multiplied, and records with such entries, appended to a lent buffer.
#![tactic(auto)]

ghost use Rattle.std.specs.Prelude.{map};
ghost use Rattle.rules.specs.definitions.Model.{entries_bytes};
ghost use Rattle.rules.specs.definitions.Reading.{entries_at};
ghost use Rattle.writer.specs.Appends.{Appends};
ghost use Rattle.placed_entries.specs.Placed.{placed_entry, CanPlaceEntries, placed_record, CanPlaceRecord};

use field::Cursor;
use transition_record::Fields;

// So many entries, from a place of the file on: each state multiplied by the stride and moved by the offset, each weight multiplied by the
// factor. Hands back the place after them.
pub fn write_entries(
    s: &[u8],
    count: usize,
    first: Cursor,
    stride: usize,
    offset: usize,
    factor: usize,
    out: &mut [u8],
    at: usize,
) -> usize
    requires { CanPlaceEntries stride offset factor s.now count first.at out.old at }
    ensures { Appends (entries_bytes (map (placed_entry stride offset factor) (entries_at s.now count first.at))) at out.old out.new result }
{
    let mut next = at;
    for entry in transition::entries(s, first, count) {
        next = writer::entry(
            out,
            next,
            stride * entry.state + offset,
            factor * entry.weight,
        );
    }
    next
}

// The record of a transition with these fields, but from this source: the fixed fields, and its entries with their states placed. Hands
// back the place after it.
pub fn write_record(
    s: &[u8],
    t: Fields,
    source: usize,
    stride: usize,
    offset: usize,
    out: &mut [u8],
    at: usize,
) -> usize
    requires { CanPlaceRecord source stride offset s.now t out.old at }
    ensures { Appends (placed_record source stride offset s.now t) at out.old out.new result }
{
    let next = writer::fixed(out, at, source, t.action, t.denominator, t.count);
    write_entries(s, t.count, t.entries, stride, offset, 1, out, next)
}
