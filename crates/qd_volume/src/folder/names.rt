//! Which files a folder has, by their names.
use std::alloc::{Alloc, AllocError, Global};
use std::collections::BTreeSet;
use std::fs::Files;
use std::io::ErrorKind;
use std::{fs, io};

/// How many digits the name of a file has.
const DIGITS: usize = 16;

/// The numbers of the files that a folder has. What has another name is none of them.
#[derive(Drop)]
pub struct Names {
    numbers: BTreeSet<u64>,
}

impl Names {
    /// Reads the names that a folder has. It takes memory for each file's number.
    pub fn read<R: Files + Alloc + Clone + Drop>(
        rt: &R,
        alloc: Global,
        path: &str,
    ) -> io::Result<Names> {
        let mut numbers = BTreeSet::new(alloc);
        for entry in fs::read_dir(rt, path)? {
            match entry {
                Ok(entry) => {
                    if let Some(number) = number_of(entry.file_name()) {
                        numbers.insert(number)?;
                    }
                }
                // The name of another is no text.
                Err(error) if error.kind() == ErrorKind::InvalidFilename => {}
                Err(error) => return Err(error),
            }
        }
        Ok(Names { numbers })
    }

    /// Whether a file is there.
    pub fn has(&self, file: u64) -> bool {
        self.numbers.contains(&file)
    }

    /// Notes that a file is made.
    pub fn add(&mut self, file: u64) -> Result<(), AllocError> {
        self.numbers.insert(file)?;
        Ok(())
    }

    /// Notes that a file is removed.
    pub fn take(&mut self, file: u64) {
        self.numbers.remove(&file);
    }
}

/// The number that a name has: one of 16 hexadecimal digits, in small letters.
fn number_of(name: &str) -> Option<u64> {
    let is_small = |b: u8| b.is_ascii_digit() || (b'a'..=b'f').contains(&b);
    if name.len() != DIGITS || !name.bytes().all(is_small) {
        return None;
    }
    u64::from_str_radix(name, 16).ok()
}
