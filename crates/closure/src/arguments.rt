//! The words of the command line, as the system hands them over.

use std::alloc::{AllocError, AllocFailed, Global};
use std::env::FillError;
use std::rt::Env;

/// Why there are no words.
#[derive(Clone, Copy, Debug, PartialEq, Eq)]
pub enum ArgumentStop {
    /// A word is no text.
    NotText,
    /// Memory ran out.
    NoMemory,
}

impl From<AllocError> for ArgumentStop {
    fn from(_: AllocError) -> ArgumentStop {
        ArgumentStop::NoMemory
    }
}

impl<T: Drop> From<AllocFailed<T>> for ArgumentStop {
    fn from(_: AllocFailed<T>) -> ArgumentStop {
        ArgumentStop::NoMemory
    }
}

/// The bytes of the word at an index, or None behind the last one.
fn word_bytes(
    rt: &(impl Env + Alloc<A = Global>),
    index: usize,
) -> Result<Option<Vec<u8>>, ArgumentStop> {
    let mut bytes = Vec::new(rt.alloc());
    for doublings in 0..24u32 {
        bytes.resize(256 << doublings, 0)?;
        match rt.arg(index, bytes.as_mut_slice()) {
            Ok(length) => {
                bytes.truncate(length);
                return Ok(Some(bytes));
            }
            Err(FillError::NotPresent) => return Ok(None),
            Err(FillError::TooLong) => {}
        }
    }
    Err(ArgumentStop::NoMemory)
}

/// The words behind the program's name.
pub fn words(rt: &(impl Env + Alloc<A = Global>)) -> Result<Vec<String>, ArgumentStop> {
    let mut words = Vec::new(rt.alloc());
    for index in 1..usize::MAX {
        let Some(bytes) = word_bytes(rt, index)? else {
            return Ok(words);
        };
        match String::from_utf8(bytes) {
            Ok(word) => words.push(word)?,
            Err(_) => return Err(ArgumentStop::NotText),
        }
    }
    Ok(words)
}
