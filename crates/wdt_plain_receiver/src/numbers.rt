//! Files by number.
use std::alloc::Global;
use wdt_units::NoMemory;

/// Which file of the tree has which number. Numbers may be left out.
#[derive(Drop)]
pub struct Numbers {
    files: Vec<Option<usize>>,
}

impl Numbers {
    /// No file has a number.
    pub fn none(alloc: Global) -> Numbers {
        Numbers {
            files: Vec::new(alloc),
        }
    }

    /// The same in memory of its own.
    pub fn copy(&self, alloc: Global) -> Result<Numbers, NoMemory> {
        let mut files = Vec::new(alloc);
        files.extend_from_slice(&self.files)?;
        Ok(Numbers { files })
    }

    /// The least number above those of all files.
    pub fn end(&self) -> u32 {
        u32::try_from(self.files.len()).unwrap_or(u32::MAX)
    }

    /// The file of a number.
    pub fn file_at(&self, number: u32) -> Option<usize> {
        match self.files.get(number as usize) {
            Some(slot) => *slot,
            None => None,
        }
    }

    /// The number of a file.
    pub fn number_of(&self, file: usize) -> Option<u32> {
        for number in 0..self.end() {
            if self.file_at(number) == Some(file) {
                return Some(number);
            }
        }
        None
    }

    /// The least number that no file has.
    pub fn free(&self) -> u32 {
        for number in 0..self.end() {
            if self.file_at(number).is_none() {
                return number;
            }
        }
        self.end()
    }

    /// A file has this number from now on, which is at most that of the end.
    pub fn put(&mut self, number: u32, file: usize) -> Result<(), NoMemory> {
        match self.files.get_mut(number as usize) {
            Some(slot) => *slot = Some(file),
            None => self.files.push(Some(file))?,
        }
        Ok(())
    }

    /// The next number is that of this file, or of none.
    pub fn push(&mut self, file: Option<usize>) -> Result<(), NoMemory> {
        self.files.push(file)?;
        Ok(())
    }

    /// How many files have a number.
    pub fn count(&self) -> usize {
        self.files.iter().filter(|slot| slot.is_some()).count()
    }
}
