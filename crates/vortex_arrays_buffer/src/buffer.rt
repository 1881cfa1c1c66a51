//! Shared lists, sliced without a copy.
ghost use Rattle.std.specs.Prelude.{◌≡◌, ◌<◌, ◌≤◌, ◌↔◌, [], Some, length, map, slice_get, slice_range, IsTrue, IfOk, All};

use std::alloc::{AllocError, Global};
use std::marker::Model;
use std::ops::Range;
use std::rc::Rc;

/// Part of a shared list, as Vortex's `Buffer`. A clone and a slice share the items.
#[derive(Drop)]
pub struct Buffer<T> {
    items: Rc<Vec<T>>,
    start: usize,
    len: usize,
}

impl<T> Model for Buffer<T> {
    ghost use Rattle.std.specs.Prelude.{List, ◌+◌, ◌≤◌, length, take, drop};

    ghost Value = { List T };

    ghost view = { λ b. take b.len (drop b.start b.items.value.items) };

    ghost invariant = { λ b. b.start + b.len ≤ length b.items.value.items };
}

impl<T: Drop> Buffer<T> {
    /// Takes over the vector, and copies no item.
    pub fn from_vec(items: Vec<T>) -> Result<Buffer<T>, AllocError>
        ensures { IfOk result (λ b. b ≡ items.items) }
    {
        let len = items.len();
        let items = Rc::new(*items.allocator(), items)?;
        Ok(Buffer {
            items,
            start: 0,
            len,
        })
    }

    /// A list without items.
    pub fn empty(alloc: Global) -> Result<Buffer<T>, AllocError>
        ensures { IfOk result (λ b. b ≡ []) }
    {
        Buffer::from_vec(Vec::new(alloc))
    }

    pub fn len(&self) -> usize
        ensures { result ≡ length self.now }
    {
        self.len
    }

    pub fn is_empty(&self) -> bool
        ensures { IsTrue result ↔ (self.now ≡ []) }
    {
        self.len == 0
    }

    pub fn as_slice(&self) -> &[T]
        ensures { result.now ≡ self.now }
    {
        &self.items.as_slice()[self.start..self.start + self.len]
    }

    /// The items of the range, shared and not copied.
    #[tactic(auto, using(crate::proofs::Windows::part_of_part))]
    pub fn slice(&self, range: Range<usize>) -> Result<Buffer<T>, AllocError>
        requires order { range.start ≤ range.end }
        requires within { range.end ≤ length self.now }
        ensures { IfOk result (λ b. b ≡ slice_range self.now range.start range.end) }
    {
        let items = self.items.clone()?;
        Ok(Buffer {
            items,
            start: self.start + range.start,
            len: range.end - range.start,
        })
    }
}

impl<T: Copy + Drop> Buffer<T> {
    pub fn get(&self, i: usize) -> T
        requires { i < length self.now }
        ensures { slice_get self.now i ≡ Some result }
    {
        self.as_slice()[i]
    }

    /// The items at the indices, in their order.
    pub fn gather(&self, alloc: Global, places: &[usize]) -> Result<Buffer<T>, AllocError>
        requires { All (λ i. i < length self.now) places.now }
        ensures { IfOk result (λ b. map Some b ≡ map (slice_get self.now) places.now) }
    {
        let mine = self.as_slice();
        let items = places.iter().map(|i| item_at(mine, *i)).collect(alloc)?;
        Buffer::from_vec(items)
    }
}

fn item_at<T: Copy + Drop>(items: &[T], i: usize) -> T
    requires { i < length items.now }
    ensures { Some result ≡ slice_get items.now i }
{
    items[i]
}

impl<T: Drop> Clone for Buffer<T> {
    ghost is_clone = { λ old new. new ≡ old };

    fn clone(&self) -> Result<Buffer<T>, AllocError> {
        let items = self.items.clone()?;
        Ok(Buffer {
            items,
            start: self.start,
            len: self.len,
        })
    }
}
