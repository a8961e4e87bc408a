//! The ends of the lines of a text that goes on.

ghost use Rattle.std.specs.Prelude.{◌≡◌, ◌<◌, length, IfSome, IfNone};
ghost use Rattle.std.specs.List.{position_or_len};
ghost use Rattle.std.specs.Str.Lines.{strip_carriage_return};
ghost use Rattle.streams.specs.Lines.{ends_line};
ghost use Rattle.audit_stream.specs.Reading.{IsCompleteLine};

use streams::place_of;

/// The first line of a text that goes on, without its line end, and what follows it; none if its
/// end is not there yet.
pub(crate) fn complete_line(text: &[u8]) -> Option<(&[u8], &[u8])>
    ensures line { IfSome result (λ found.
        IsCompleteLine text.now found.0.now found.1.now) }
    ensures shorter { IfSome result (λ found. length found.1.now < length text.now) }
    ensures none { IfNone result (position_or_len ends_line text.now ≡ length text.now) }
{
    let (line, rest) = text.split_at(place_of(b'\n', text));
    match rest {
        [_, others @ ..] => Some((without_return(line), others)),
        [] => None,
    }
}

/// The line without a CR at its end.
fn without_return(line: &[u8]) -> &[u8]
    ensures { result.now ≡ strip_carriage_return line.now }
{
    match line {
        [front @ .., b'\r'] => front,
        _ => line,
    }
}
