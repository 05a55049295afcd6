//! Calls of the whole program: its words, and files by name.
use runner::{FileFault, Files};
use std::alloc::{AllocError, Global};

/// Files by name: others can't be read, and there is no memory for `large`.
#[derive(Clone, Copy)]
pub struct Table<'a> {
    pub alloc: Global,
    pub files: &'a [(&'a str, &'a str)],
}

impl Files for Table<'_> {
    fn read(&mut self, name: &str) -> Result<Vec<u8>, FileFault> {
        if name == "large" {
            return Err(FileFault::Memory);
        }
        for (file, text) in self.files {
            if *file == name {
                return text
                    .as_bytes()
                    .to_vec(self.alloc)
                    .map_err(|_| FileFault::Memory);
            }
        }
        Err(FileFault::Cannot)
    }
}

/// The words of a line.
pub fn words_of(alloc: Global, line: &str) -> Result<Vec<String>, AllocError> {
    let mut words = Vec::new(alloc);
    for word in line.split(' ') {
        words.push(String::from_str(alloc, word)?)?;
    }
    Ok(words)
}
