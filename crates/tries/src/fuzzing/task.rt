//! Words of the command `fuzz`.

use crate::words::{count_at, number_at};

/// The mutants to be read.
#[derive(Drop)]
pub(crate) struct Task {
    pub(crate) seed: u64,
    /// Number of mutants.
    pub(crate) count: u32,
    /// True if each mutant has a line.
    pub(crate) list: bool,
}

/// Parses the words: two numbers, and perhaps `LIST`. `None` if they are something else.
pub(crate) fn task_of(words: &[String]) -> Option<Task> {
    let list = match words.get(2) {
        None => false,
        Some(word) if word.as_str() == "LIST" => true,
        Some(_) => return None,
    };
    if words.len() > 3 {
        return None;
    }
    Some(Task {
        seed: number_at(words, 0)?,
        count: count_at(words, 1)?,
        list,
    })
}
