//! Iteration over the items of a list in blocks.
ghost use Rattle.std.specs.Prelude.{◌≡◌, ◌∷◌, [], length, MatchOption};
ghost use Rattle.vortex_table_io.specs.Blocks.{left_in};

/// The items of a list from some item on.
#[derive(Drop)]
pub struct Walk<'l, T> {
    // The rest of the current block.
    pub(crate) block: &'l [T],
    // The blocks after it.
    pub(crate) blocks: &'l [Vec<T>],
}

impl<'l, T> Walk<'l, T> {
    /// The next item, and `None` at the end.
    pub fn next_item(&mut self) -> Option<&'l T>
        ensures { MatchOption result (left_in self.old ≡ [])
            (λ item. left_in self.old ≡ item.now ∷ left_in self.new) }
    {
        self.enter_block();
        let (item, behind) = self.block.split_first()?;
        self.block = behind;
        Some(item)
    }

    // Moves to the next block that has items, where the current one has none left.
    fn enter_block(&mut self)
        ensures left { left_in self.new ≡ left_in self.old }
        ensures done { length self.new.block.now ≡ 0 → left_in self.new ≡ [] }
    {
        while self.block.is_empty() {
            let Some((block, blocks)) = self.blocks.split_first() else {
                return;
            };
            self.block = block.as_slice();
            self.blocks = blocks;
        }
    }
}
