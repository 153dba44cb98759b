//! Values in order, of which there are mostly one or two.

ghost use Rattle.std.specs.Prelude.{◌≡◌, ◌<◌, ◌≤◌, ◌++◌, ◌∷◌, [], IfOk, OnErr, OnOk, length};
ghost use Rattle.std.specs.Prelude.{slice_set};
ghost use Rattle.std.specs.List.{insert};
ghost use Rattle.spf_x509.specs.Few.{few_items};

use spf_io::OutOfMemory;
use std::alloc::Global;
use std::{mem, slice};

/// Values in order, of which one or two take no list.
#[derive(Debug, Drop)]
pub(crate) enum Few<T> {
    Nothing,
    One(T),
    Two([T; 2]),
    Listed(Vec<T>),
}

impl<T: Drop> Few<T> {
    /// No values yet, and a list only where more than two are to come.
    #[inline]
    pub(crate) fn with_capacity(alloc: Global, count: usize) -> Result<Few<T>, OutOfMemory>
        ensures { IfOk result (λ f. few_items f ≡ []) }
    {
        if count <= 2 {
            return Ok(Few::Nothing);
        }
        Ok(Few::Listed(Vec::with_capacity(alloc, count)?))
    }

    #[inline]
    pub(crate) fn as_slice(&self) -> &[T]
        ensures { result.now ≡ few_items self.now }
    {
        match self {
            Few::Nothing => &[],
            Few::One(one) => slice::from_ref(one),
            Few::Two(two) => two.as_slice(),
            Few::Listed(list) => list.as_slice(),
        }
    }

    #[inline]
    pub(crate) fn len(&self) -> usize
        ensures { result ≡ length (few_items self.now) }
    {
        self.as_slice().len()
    }

    /// Puts the value in place of the one at the index.
    #[inline]
    pub(crate) fn set(&mut self, index: usize, value: T)
        requires { index < length (few_items self.old) }
        ensures { few_items self.new ≡ slice_set (few_items self.old) index value }
    {
        match self {
            Few::Nothing => {}
            Few::One(one) => *one = value,
            Few::Two(two) => two.as_mut_slice()[index] = value,
            Few::Listed(list) => list[index] = value,
        }
    }

    /// Appends a value. An error leaves those that there are.
    #[inline]
    pub(crate) fn push(&mut self, alloc: Global, value: T) -> Result<(), OutOfMemory>
        ensures ok { OnOk result (few_items self.new ≡ few_items self.old ++ value ∷ []) }
        ensures err { OnErr result (few_items self.new ≡ few_items self.old) }
    {
        let end = self.len();
        self.insert(alloc, end, value)
    }

    /// Puts the value before the one at the index. An error leaves those that there are.
    #[inline]
    pub(crate) fn insert(
        &mut self,
        alloc: Global,
        index: usize,
        value: T,
    ) -> Result<(), OutOfMemory>
        requires { index ≤ length (few_items self.old) }
        ensures ok { OnOk result (few_items self.new ≡ insert (few_items self.old) index value) }
        ensures err { OnErr result (few_items self.new ≡ few_items self.old) }
    {
        match mem::replace(self, Few::Nothing) {
            Few::Nothing => *self = Few::One(value),
            Few::One(one) if index == 0 => *self = Few::Two([value, one]),
            Few::One(one) => *self = Few::Two([one, value]),
            Few::Two(two) => return self.insert_third(alloc, two, index, value),
            Few::Listed(list) => return self.insert_listed(list, index, value),
        }
        Ok(())
    }

    /// Becomes a list of the two and the value. An error leaves the two.
    #[inline(never)]
    fn insert_third(
        &mut self,
        alloc: Global,
        two: [T; 2],
        index: usize,
        value: T,
    ) -> Result<(), OutOfMemory>
        requires { index ≤ 2 }
        ensures ok { OnOk result (few_items self.new ≡ insert two index value) }
        ensures err { OnErr result (few_items self.new ≡ two) }
    {
        match Vec::from_array(alloc, two) {
            Ok(list) => self.insert_listed(list, index, value),
            Err(failed) => {
                *self = Few::Two(failed.value);
                Err(OutOfMemory)
            }
        }
    }

    /// Becomes the list with the value. An error leaves the list.
    #[inline(never)]
    fn insert_listed(&mut self, mut list: Vec<T>, index: usize, value: T) -> Result<(), OutOfMemory>
        requires { index ≤ length list.items }
        ensures ok { OnOk result (few_items self.new ≡ insert list.items index value) }
        ensures err { OnErr result (few_items self.new ≡ list.items) }
    {
        let inserted = list.insert(index, value);
        *self = Few::Listed(list);
        inserted?;
        Ok(())
    }
}
