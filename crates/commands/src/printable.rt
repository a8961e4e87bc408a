//! Characters that are escaped in output, since a terminal would obey them.

ghost use Rattle.std.specs.Prelude.{◌≡◌};
ghost use Rattle.std.specs.List.{list_any};
ghost use Rattle.std.specs.Str.{chars};
ghost use Rattle.commands.specs.Printable.{is_unprintable};

use std::fmt;

/// Returns true if a text has a control character, or one that changes the direction of text.
pub fn has_unprintable(text: &str) -> bool
    ensures { result ≡ list_any is_unprintable (chars text.now) }
{
    text.chars().any(|c| is_unprintable(c))
}

/// Returns true for a control character (U+0000 to U+001F, U+007F to U+009F), and for one that
/// changes the direction of text (U+202A to U+202E, U+2066 to U+2069).
pub fn is_unprintable(c: char) -> bool
    ensures { result ≡ is_unprintable c }
{
    let code = u32::from(c);
    code <= 0x1f
        || (0x7f <= code && code <= 0x9f)
        || (0x202a <= code && code <= 0x202e)
        || (0x2066 <= code && code <= 0x2069)
}

/// A text in which each such character is escaped.
#[derive(Drop)]
pub struct Escaped<'a>(pub &'a str);

impl fmt::Display for Escaped<'_> {
    fn fmt<W: fmt::Write>(&self, f: &mut fmt::Formatter<W>) -> fmt::Result {
        for c in self.0.chars() {
            if is_unprintable(c) {
                write_escaped(f, c)?;
            } else {
                f.write_char(c)?;
            }
        }
        Ok(())
    }
}

/// Writes the number of a character: `\x0a`, or `\u{9f}` from U+0080 on.
pub fn write_escaped<W: fmt::Write>(f: &mut fmt::Formatter<W>, c: char) -> fmt::Result {
    let code = u32::from(c);
    if code < 0x80 {
        write!(f, "\\x{code:02x}")
    } else {
        write!(f, "\\u{{{code:x}}}")
    }
}
