// The length of the block sheet, and its lines for all blocks.
#![tactic(auto)]

ghost use Rattle.std.specs.Prelude.{◌+◌, ◌≤◌, ◌<◌, ◌≡◌, eqb, length, get_or};
ghost use Rattle.answer.specs.Answered.{FileWritten};
ghost use Rattle.writer.specs.Appends.{Appends};
ghost use Rattle.sheet_blocks.specs.Blocks.{sheet_of, lines_from, BlocksInRows, AtState, CountedAt, PutAt};

use pairs::Rows;

const LINE: usize = 73;

// How many bytes the blocks that are new at a state take, and how many blocks were seen.
#[derive(Clone, Copy)]
pub struct Counted {
    pub bytes: usize,
    pub seen: usize,
}

// The place after what was written, and how many blocks were seen.
#[derive(Clone, Copy)]
pub struct Put {
    pub next: usize,
    pub seen: usize,
}

// The state v is the first of its block: blocks are numbered by first appearance.
fn is_first(blocks: &[u8], v: usize, seen: usize) -> bool
    requires { v < length blocks.now }
    ensures { result ≡ eqb (get_or blocks.now v 0) seen }
{
    blocks[v] as usize == seen
}

// The bytes of the block whose first state is v; none where v is not the first of its block.
fn count_block(blocks: &[u8], rows: &Rows, v: usize, seen: usize) -> Counted
    requires { AtState blocks.now rows.now v seen }
    ensures { CountedAt blocks.now v seen result }
{
    if !is_first(blocks, v, seen) {
        return Counted { bytes: 0, seen };
    }
    let members = pairs::count_related(rows, v);
    Counted {
        bytes: LINE * sheet_lines::line_count(members),
        seen: seen + 1,
    }
}

// The length of the sheet.
fn sheet_length(blocks: &[u8], rows: &Rows) -> usize
    requires { BlocksInRows blocks.now rows.now }
    ensures { result ≡ length (sheet_of blocks.now) }
{
    let mut total = 0;
    let mut seen = 0;
    for v in 0..blocks.len() {
        let counted = count_block(blocks, rows, v, seen);
        total += counted.bytes;
        seen = counted.seen;
    }
    total
}

// The lines of the block whose first state is v; nothing where v is not the first of its block.
fn write_block(blocks: &[u8], rows: &Rows, v: usize, seen: usize, out: &mut [u8], at: usize) -> Put
    requires { AtState blocks.now rows.now v seen × (at + length (lines_from blocks.now seen) ≤ length out.old) }
    ensures { PutAt blocks.now v seen at out.old out.new result }
{
    if !is_first(blocks, v, seen) {
        return Put { next: at, seen };
    }
    let size = pairs::count_related(rows, v);
    let next = sheet_lines::block(rows, v, seen, size, out, at);
    Put {
        next,
        seen: seen + 1,
    }
}

// The lines of all blocks.
fn write_blocks(blocks: &[u8], rows: &Rows, out: &mut [u8]) -> usize
    requires { BlocksInRows blocks.now rows.now × (length (sheet_of blocks.now) ≤ length out.old) }
    ensures { Appends (sheet_of blocks.now) 0 out.old out.new result }
{
    let mut next = 0;
    let mut seen = 0;
    for v in 0..blocks.len() {
        let put = write_block(blocks, rows, v, seen, out, next);
        next = put.next;
        seen = put.seen;
    }
    next
}

// The sheet, written if there is room for it, and its length.
pub fn write_sheet(blocks: &[u8], rows: &Rows, out: &mut [u8]) -> usize
    requires { BlocksInRows blocks.now rows.now }
    ensures { FileWritten (sheet_of blocks.now) out.old out.new result }
{
    let size = sheet_length(blocks, rows);
    if size <= out.len() {
        write_blocks(blocks, rows, out);
    }
    size
}
