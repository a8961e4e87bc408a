//! Numbers among the words of a command.

use std::alloc::Global;

/// Returns the number at that index, if there is one.
pub(crate) fn number_at(words: &[String], index: usize) -> Option<u64> {
    words.get(index)?.as_str().parse::<u64>().ok()
}

/// Returns the number of 32 bits at that index, if there is one.
pub(crate) fn count_at(words: &[String], index: usize) -> Option<u32> {
    words.get(index)?.as_str().parse::<u32>().ok()
}

/// Returns the ports that these words name. `None` if a word is no port, or an allocation fails.
pub(crate) fn ports_of(alloc: Global, words: &[String]) -> Option<Vec<u16>> {
    let mut ports = Vec::new(alloc);
    for word in words {
        let port = word.as_str().parse::<u16>().ok()?;
        ports.push(port).ok()?;
    }
    Some(ports)
}
