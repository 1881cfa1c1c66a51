//! A list in blocks.
ghost use Rattle.std.specs.Prelude.{◌≡◌, ◌+◌, ◌<◌, ◌^◌, ◌++◌, ◌∷◌, [], length, take, drop, slice_index_or, slice_set, OnOk, OnErr};
ghost use Rattle.vortex_table_io.specs.Blocks.{items_in, left_in, IsAt};

use crate::walk::Walk;
use std::alloc::{AllocError, Global};
use std::marker::Model;

// The most items of a block.
const BLOCK_LEN: usize = 256;

/// A list of items, which contracts see in order. `remove` takes time in the number of blocks, and
/// moves items of one block only.
#[derive(Drop)]
pub struct BlockList<T> {
    blocks: Vec<Vec<T>>,
    len: usize,
}

impl<T> Model for BlockList<T> {
    ghost use Rattle.std.specs.Prelude.{◌≡◌, List, length};
    ghost use Rattle.vortex_table_io.specs.Blocks.{items_in};

    ghost Value = { List T };

    ghost view = { λ l. items_in l.blocks.items };

    ghost invariant = { λ l. length (items_in l.blocks.items) ≡ l.len };
}

// Where an item is: its block, and its index there.
#[derive(Clone, Copy, Drop)]
pub(crate) struct Position {
    block: usize,
    offset: usize,
}

fn locate<T>(blocks: &[Vec<T>], index: usize) -> Position
    requires { index < length (items_in blocks.now) }
    ensures item { IsAt blocks.now result.block result.offset index }
    ensures block { result.block < length blocks.now }
{
    let mut offset = index;
    for (number, block) in blocks.iter().enumerate() {
        if offset < block.len() {
            return Position {
                block: number,
                offset,
            };
        }
        offset -= block.len();
    }
    unreachable!()
}

fn item_in<T>(blocks: &[Vec<T>], index: usize) -> &T
    requires { index < length (items_in blocks.now) }
    ensures { result.now ≡ slice_index_or (items_in blocks.now) index result.now }
{
    let position = locate(blocks, index);
    let block = &blocks[position.block];
    &block[position.offset]
}

fn replace_in<T: Drop>(blocks: &mut [Vec<T>], index: usize, item: T)
    requires { index < length (items_in blocks.old) }
    ensures { items_in blocks.new ≡ slice_set (items_in blocks.old) index item }
{
    let position = locate(blocks, index);
    let block = &mut blocks[position.block];
    block[position.offset] = item;
}

fn remove_in<T: Drop>(blocks: &mut [Vec<T>], index: usize)
    requires { index < length (items_in blocks.old) }
    ensures { items_in blocks.new
        ≡ take index (items_in blocks.old) ++ drop (index + 1) (items_in blocks.old) }
{
    let position = locate(blocks, index);
    let block = &mut blocks[position.block];
    let _item = block.remove(position.offset);
}

// Adds the item to the last block, or to a new one where that is full.
fn push_in<T: Drop>(blocks: &mut Vec<Vec<T>>, item: T) -> Result<(), AllocError>
    ensures pushed { OnOk result
        (items_in blocks.new.items ≡ items_in blocks.old.items ++ item ∷ []) }
    ensures unchanged { OnErr result (items_in blocks.new.items ≡ items_in blocks.old.items) }
{
    let count = blocks.len();
    if count > 0 && blocks[count - 1].len() < BLOCK_LEN {
        blocks[count - 1].push(item)?;
        return Ok(());
    }
    let mut block = Vec::new(*blocks.allocator());
    block.push(item)?;
    blocks.push(block)?;
    Ok(())
}

impl<T: Drop> BlockList<T> {
    pub fn new(alloc: Global) -> BlockList<T>
        ensures { result ≡ [] }
    {
        BlockList {
            blocks: Vec::new(alloc),
            len: 0,
        }
    }

    pub fn len(&self) -> usize
        ensures { result ≡ length self.now }
    {
        self.len
    }

    /// A walk over the items in order.
    pub fn walk(&self) -> Walk<'_, T>
        ensures { left_in result ≡ self.now }
    {
        Walk {
            block: &[],
            blocks: self.blocks.as_slice(),
        }
    }

    pub fn item(&self, index: usize) -> &T
        requires { index < length self.now }
        ensures { result.now ≡ slice_index_or self.now index result.now }
    {
        item_in(&self.blocks, index)
    }

    /// Adds the item at the end.
    pub fn push(&mut self, item: T) -> Result<(), AllocError>
        requires { length self.old + 1 < 2 ^ 64 }
        ensures pushed { OnOk result (self.new ≡ self.old ++ item ∷ []) }
        ensures unchanged { OnErr result (self.new ≡ self.old) }
    {
        push_in(&mut self.blocks, item)?;
        self.len += 1;
        Ok(())
    }

    pub fn replace(&mut self, index: usize, item: T)
        requires { index < length self.old }
        ensures { self.new ≡ slice_set self.old index item }
    {
        replace_in(&mut self.blocks, index, item);
    }

    /// Removes the item at the index.
    pub fn remove(&mut self, index: usize)
        requires { index < length self.old }
        ensures { self.new ≡ take index self.old ++ drop (index + 1) self.old }
    {
        remove_in(&mut self.blocks, index);
        self.len -= 1;
    }
}

impl<T: Clone + Drop> BlockList<T> {
    ghost use Rattle.std.specs.Prelude.{IfOk};
    ghost use Rattle.std.specs.List.{AllZip};

    /// The list with a clone of each item.
    pub fn clone(&self) -> Result<BlockList<T>, AllocError>
        ensures { IfOk result (λ new. AllZip T.is_clone self.now new) }
    {
        let blocks = self.blocks.clone()?;
        let len = self.len;
        Ok(BlockList { blocks, len })
    }
}
