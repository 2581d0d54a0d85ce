// How much of the lent memory a memo takes.

ghost use Rattle.std.specs.Prelude.{◌≡◌, ◌*◌};
ghost use Rattle.rules.specs.Memo as memory;
ghost use Rattle.table.specs.Tables.{shape_of};

use table::Table;

// The measures of a memo, with how many words and tags it takes.
#[derive(Clone, Copy)]
pub struct MemoSize {
    pub table: Table,
    pub words: usize,
    pub tags: usize,
    pub ghost words_are: { words ≡ memory.rows (shape_of table) * memory.stride (shape_of table) },
    pub ghost tags_are: { tags ≡ memory.rows (shape_of table) },
}

impl MemoSize {
    ghost use Rattle.std.specs.Prelude.{◌&&◌, leb};

    // The size of a table.
    pub(crate) fn of(table: Table) -> MemoSize
        ensures { result.table ≡ table }
    {
        MemoSize {
            table,
            words: table.words(),
            tags: table.rows(),
        }
    }

    // Whether so many words and tags are enough.
    pub(crate) fn fits(self, words: usize, tags: usize) -> bool
        ensures { result ≡ leb (memory.rows (shape_of self.table) * memory.stride (shape_of self.table)) words && leb (memory.rows (shape_of self.table)) tags }
    {
        self.words <= words && self.tags <= tags
    }
}
