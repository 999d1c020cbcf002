//! Values and lists by number.

use std::alloc::{AllocError, Global};

/// A value for each number below a count. Any other number has the first value, and keeps it.
pub(crate) struct Column<T: Copy> {
    values: Vec<T>,
    first: T,
}

impl<T: Copy> Drop for Column<T> {
    fn drop(self) {
        let Column { values, first: _ } = self;
        drop(values);
    }
}

impl<T: Copy> Column<T> {
    /// Returns the first value for each number.
    pub(crate) fn new(alloc: Global, count: u32, first: T) -> Result<Column<T>, AllocError> {
        let mut values = Vec::new(alloc);
        values.resize(count as usize, first)?;
        Ok(Column { values, first })
    }

    pub(crate) fn get(&self, number: u32) -> T {
        match self.values.get(number as usize) {
            Some(value) => *value,
            None => self.first,
        }
    }

    pub(crate) fn set(&mut self, number: u32, value: T) {
        if let Some(kept) = self.values.get_mut(number as usize) {
            *kept = value;
        }
    }
}

/// A list for each number below a count. Any other number has the empty list, and keeps it.
pub(crate) struct Lists<T: Copy> {
    lists: Vec<Vec<T>>,
}

impl<T: Copy> Drop for Lists<T> {
    fn drop(self) {
        let Lists { lists } = self;
        drop(lists);
    }
}

impl<T: Copy> Lists<T> {
    /// Returns the empty list for each number.
    pub(crate) fn new(alloc: Global, count: u32) -> Result<Lists<T>, AllocError> {
        let mut lists = Vec::new(alloc);
        for _ in 0..count {
            lists.push(Vec::new(alloc))?;
        }
        Ok(Lists { lists })
    }

    pub(crate) fn get(&self, number: u32) -> &[T] {
        match self.lists.get(number as usize) {
            Some(list) => list.as_slice(),
            None => &[],
        }
    }

    /// Adds a value at the end of a list.
    pub(crate) fn push(&mut self, number: u32, value: T) -> Result<(), AllocError> {
        if let Some(list) = self.lists.get_mut(number as usize) {
            list.push(value)?;
        }
        Ok(())
    }
}
