// The entries of a transition, one after the other.
ghost use Rattle.std.specs.Prelude.{◌+◌, ◌*◌, ◌≤◌, length};

use field::Cursor;

// So many entries left, from a place of the file on.
#[derive(Clone, Copy)]
pub struct Entries<'a> {
    pub(crate) file: &'a [u8],
    pub(crate) place: Cursor,
    pub(crate) left: usize,
    // They stand in the file.
    ghost inside: { place.at + 3 * left ≤ length file.now },
}

impl<'a> Iterator for Entries<'a> {
    ghost use Rattle.std.specs.Iterator.{YieldsFirstBy, item_count};
    ghost use Rattle.transition.specs.Entries.{entry_of};
    ghost use Rattle.transition.specs.EntriesLeft.{entries_left};

    type Item = super::Entry;

    ghost next_gives = { YieldsFirstBy entry_of entries_left };

    ghost remaining = { item_count entries_left };

    fn next(&mut self) -> Option<super::Entry> {
        if self.left == 0 {
            return None;
        }
        let entry = super::entry_at(self.file, self.place);
        self.place = entry.next;
        self.left -= 1;
        Some(entry)
    }
}
