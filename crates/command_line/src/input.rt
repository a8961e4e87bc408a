//! The input of a script or an audit.

ghost use Rattle.std.specs.Prelude.{◌≡◌, IfOk, option_map};
ghost use Rattle.command_line.specs.Inputs.{asked_file, name_of};

use std::alloc::{AllocError, Global};

/// The input of a script or an audit.
#[derive(Drop)]
pub enum Input {
    /// Standard input.
    Standard,
    /// The file of that name.
    File(String),
}

/// Returns the input for the name of a file. Without one, or with `-`, it is standard input.
///
/// # Errors
///
/// Memory ran out.
pub(crate) fn input_of(alloc: Global, file: Option<&str>) -> Result<Input, AllocError>
    ensures { IfOk result (λ input.
        name_of input ≡ asked_file (option_map (λ name. name.now) file.entry)) }
{
    match file {
        None => Ok(Input::Standard),
        Some(name) => {
            if name == "-" {
                Ok(Input::Standard)
            } else {
                Ok(Input::File(String::from_str(alloc, name)?))
            }
        }
    }
}
