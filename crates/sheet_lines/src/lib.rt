// The lines of a block on the sheet, appended to what stands in a lent buffer. The members of a block are the states related to one of them.
#![tactic(auto)]

ghost use Rattle.std.specs.Prelude.{◌+◌, ◌*◌, ◌≤◌, ◌<◌, ◌≡◌, ◌++◌, length};
ghost use Rattle.rules.specs.definitions.Limits.{limits};
ghost use Rattle.pairs.specs.Rows.{row_bit};
ghost use Rattle.block_sheet.specs.definitions.Sheet as sheet;
ghost use Rattle.writer.specs.Appends.{Appends};
ghost use Rattle.sheet_lines.specs.Lines.{members_from, CellTaken, LineTaken};

use limits::STATES;
use pairs::Rows;

const SPACE: usize = 0x20;

const DIGIT: usize = 0x30;

const NEWLINE: usize = 0x0A;

const CELLS: usize = 16;

// The place after what was written, and the state from which on members are left.
#[derive(Clone, Copy)]
pub struct Written {
    pub next: usize,
    pub from: usize,
}

// A column of a number: the digit of the place value p, or a space.
fn column(p: usize, x: usize) -> usize
    requires { 0 < p }
    ensures { (result ≡ sheet.column p x) × (result < 256) }
{
    if x < p {
        return SPACE;
    }
    DIGIT + x / p % 10
}

// A number in 4 columns.
fn cell(out: &mut [u8], at: usize, x: usize) -> usize
    requires { at + 4 ≤ length out.old }
    ensures { Appends (sheet.cell x) at out.old out.new result }
{
    let second = writer::byte(out, at, column(1000, x));
    let third = writer::byte(out, second, column(100, x));
    let last = writer::byte(out, third, column(10, x));
    writer::byte(out, last, DIGIT + x % 10)
}

// 4 spaces.
fn blank(out: &mut [u8], at: usize) -> usize
    requires { at + 4 ≤ length out.old }
    ensures { Appends sheet.blank at out.old out.new result }
{
    writer::part(out, at, b"    ")
}

// The cell of the first member from a state on, blank where none is left.
fn next_cell(rows: &Rows, v: usize, from: usize, out: &mut [u8], at: usize) -> Written
    requires { (v < limits.states) × (from ≤ limits.states) × (at + 4 ≤ length out.old) }
    ensures { CellTaken (row_bit rows.now v) from at out.old out.new result }
{
    let Some(member) = pairs::next_related(rows, v, from) else {
        let next = blank(out, at);
        return Written { next, from: STATES };
    };
    let next = cell(out, at, member);
    Written {
        next,
        from: member + 1,
    }
}

// A line behind its first 8 columns: the members from a state on, as many as it has cells for, and its end.
fn rest_of_line(rows: &Rows, v: usize, from: usize, out: &mut [u8], at: usize) -> Written
    requires { (v < limits.states) × (from ≤ limits.states) × (at + 65 ≤ length out.old) }
    ensures { LineTaken (row_bit rows.now v) from at out.old out.new result }
{
    let mut next = at;
    let mut member = from;
    for _ in 0..CELLS {
        let taken = next_cell(rows, v, member, out, next);
        next = taken.next;
        member = taken.from;
    }
    Written {
        next: writer::byte(out, next, NEWLINE),
        from: member,
    }
}

// So many further lines of a block, for its members from a state on.
fn further_lines(
    rows: &Rows,
    v: usize,
    from: usize,
    count: usize,
    out: &mut [u8],
    at: usize,
) -> usize
    requires { (v < limits.states) × (from ≤ limits.states) × (at + 73 * count ≤ length out.old) }
    ensures { Appends (sheet.lines count (sheet.blank ++ sheet.blank) (members_from (row_bit rows.now v) from)) at out.old out.new result }
{
    let mut next = at;
    let mut member = from;
    for _ in 0..count {
        let front = blank(out, next);
        let cells = blank(out, front);
        let written = rest_of_line(rows, v, member, out, cells);
        next = written.next;
        member = written.from;
    }
    next
}

// How many lines so many members take.
pub fn line_count(size: usize) -> usize
    requires { size ≤ limits.states }
    ensures { result ≡ sheet.line_count size }
{
    size.div_ceil(CELLS)
}

// The block of so many states of which v is one.
pub fn block(rows: &Rows, v: usize, b: usize, size: usize, out: &mut [u8], at: usize) -> usize
    requires { (v < limits.states) × (0 < size) × (size ≤ limits.states) × (at + 73 * sheet.line_count size ≤ length out.old) }
    ensures { Appends (sheet.lines (sheet.line_count size) (sheet.cell b ++ sheet.cell size) (members_from (row_bit rows.now v) 0)) at out.old out.new result }
{
    let front = cell(out, at, b);
    let cells = cell(out, front, size);
    let first = rest_of_line(rows, v, 0, out, cells);
    further_lines(rows, v, first.from, line_count(size) - 1, out, first.next)
}
