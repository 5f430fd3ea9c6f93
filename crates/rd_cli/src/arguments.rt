//! The words of the command line.

use std::alloc::{AllocError, Global};
use std::env::FillError;
use std::rt::Env;

/// The most bytes of a word that could be a command's.
const MAX_WORD: usize = 4096;

/// The words after the program's name, which may be any bytes. Where they aren't text they are no command, as no words are.
pub fn words_of<R: Env + AllocGlobal>(rt: &R) -> Result<Vec<String>, AllocError> {
    let mut words = Vec::new(rt.alloc());
    let mut word = [0; MAX_WORD];
    for index in 1..usize::MAX {
        match rt.arg(index, &mut word) {
            Ok(count) => match text_of(rt.alloc(), &word[..count])? {
                Some(text) => words.push(text)?,
                None => return Ok(Vec::new(rt.alloc())),
            },
            Err(FillError::NotPresent) => break,
            Err(FillError::TooLong) => return Ok(Vec::new(rt.alloc())),
        }
    }
    Ok(words)
}

/// The text that bytes are, if they are one.
fn text_of(alloc: Global, bytes: &[u8]) -> Result<Option<String>, AllocError> {
    match std::str::from_utf8(bytes) {
        Ok(text) => Ok(Some(String::from_str(alloc, text)?)),
        Err(_) => Ok(None),
    }
}
