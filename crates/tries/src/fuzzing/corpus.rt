//! The corpus of responses: each is four bytes, which are its length with the highest byte first,
//! and its bytes.

use std::alloc::Global;

/// Returns the responses of a corpus. `None` if it is no corpus, or an allocation fails.
pub(crate) fn responses_of(alloc: Global, corpus: &[u8]) -> Option<Vec<Vec<u8>>> {
    let mut responses = Vec::new(alloc);
    let mut rest = corpus;
    for _ in 0..corpus.len() {
        if rest.is_empty() {
            break;
        }
        let (response, more) = first_of(rest)?;
        responses.push(Vec::from_slice(alloc, response).ok()?).ok()?;
        rest = more;
    }
    Some(responses)
}

// Returns the first response, and the rest.
fn first_of(corpus: &[u8]) -> Option<(&[u8], &[u8])> {
    let (length, rest) = corpus.split_at_checked(4)?;
    let length = u32::from_be_bytes(length.try_into().ok()?);
    rest.split_at_checked(length as usize)
}
