//! Values by number.

use std::alloc::{AllocError, Global};

/// A value for each number below a count. Any other number has the first value, and keeps it.
#[derive(Drop)]
pub(crate) struct Column<T: Copy> {
    values: Vec<T>,
    first: T,
}

impl<T: Copy> Column<T> {
    /// Returns the first value for each number.
    pub(crate) fn new(alloc: Global, count: u32, first: T) -> Result<Column<T>, AllocError> {
        let mut values = Vec::new(alloc);
        values.resize(count as usize, first)?;
        Ok(Column { values, first })
    }

    pub(crate) fn get(&self, number: u32) -> T {
        match self.values.get(number as usize) {
            Some(value) => *value,
            None => self.first,
        }
    }

    pub(crate) fn set(&mut self, number: u32, value: T) {
        if let Some(kept) = self.values.get_mut(number as usize) {
            *kept = value;
        }
    }
}
