//! The words with which the system starts the program.

use crate::words::Words;
use std::env;
use std::io::ErrorKind;

/// The words with which the program was started, or why they could not be had.
pub fn given_words(rt: &HostRuntime) -> Words {
    match env::args(rt) {
        Ok(words) => match words.collect(rt.alloc()) {
            Ok(words) => Words::Given(words),
            Err(_) => Words::NoMemory,
        },
        Err(error) => {
            if error.kind() == ErrorKind::OutOfMemory {
                Words::NoMemory
            } else {
                Words::NotText
            }
        }
    }
}
