ghost use Rattle.std.specs.Prelude.{◌≡◌, ◌<◌, ◌∷◌, length};
ghost use Rattle.streams.specs.Lines.{lines};
ghost use Rattle.std.specs.Str.Lines.{strip_carriage_return};

use crate::words::place_of;

/// The first line, without its line end, and what follows it.
pub fn first_line(script: &[u8]) -> (&[u8], &[u8])
    requires { 0 < length script.now }
    ensures first { lines script.now ≡ result.0.now ∷ lines result.1.now }
    ensures shorter { length result.1.now < length script.now }
{
    let (line, rest) = script.split_at(place_of(b'\n', script));
    match rest {
        [_, others @ ..] => (without_return(line), others),
        [] => (line, rest),
    }
}

/// The line without a CR at its end.
fn without_return(line: &[u8]) -> &[u8]
    ensures { result.now ≡ strip_carriage_return line.now }
{
    match line {
        [front @ .., b'\r'] => front,
        _ => line,
    }
}
