//! The words that the program was started with.

ghost use Rattle.std.specs.Prelude.{◌≡◌};

use crate::counts::MeasureError;
use std::env::Args;

/// What the next word stands for, by a table of words.
pub(crate) fn next_choice<T: Copy>(
    words: &mut Args,
    choices: &[(&str, T)],
) -> Result<T, MeasureError> {
    let word = words.next().ok_or(MeasureError::Words)?;
    for choice in choices {
        if word.as_str() == choice.0 {
            return Ok(choice.1);
        }
    }
    Err(MeasureError::Words)
}

/// The next word as a number.
pub(crate) fn next_number(words: &mut Args) -> Result<u32, MeasureError> {
    let word = words.next().ok_or(MeasureError::Words)?;
    match word.as_str().parse::<u32>() {
        Ok(number) => Ok(number),
        Err(_) => Err(MeasureError::Words),
    }
}
