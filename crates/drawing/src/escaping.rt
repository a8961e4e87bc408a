//! Texts as XML writes them.

ghost use Rattle.std.specs.Prelude.{◌≡◌, ◌++◌, flat_map, string_bytes, OnOk};
ghost use Rattle.std.specs.Str.{chars};
ghost use Rattle.drawing.specs.Escaping.{escape, is_refused};

use std::alloc::AllocError;

/// Adds a text as it stands between tags or in double quotes: `&`, `<`, `>` and `"` as references,
/// and U+FFFD for each character that XML refuses.
///
/// # Errors
///
/// There is no memory for it; then a front of the text may have been added.
pub fn add_escaped(out: &mut String, text: &str) -> Result<(), AllocError>
    ensures { OnOk result (string_bytes out.new
        ≡ string_bytes out.old ++ flat_map escape (chars text.now)) }
{
    for c in text.chars() {
        add_char(out, c)?;
    }
    Ok(())
}

// Adds a character.
fn add_char(out: &mut String, c: char) -> Result<(), AllocError>
    ensures { OnOk result (string_bytes out.new ≡ string_bytes out.old ++ escape c) }
{
    match c {
        '&' => out.push_str("&amp;"),
        '<' => out.push_str("&lt;"),
        '>' => out.push_str("&gt;"),
        '"' => out.push_str("&quot;"),
        _ => {
            if is_refused(c) {
                out.push('\u{fffd}')
            } else {
                out.push(c)
            }
        }
    }
}

// Whether XML has no place for a character: a control character but tab, line feed and carriage
// return, or U+FFFE or U+FFFF.
fn is_refused(c: char) -> bool
    ensures { result ≡ is_refused c }
{
    let code = u32::from(c);
    (code <= 0x1f && code != 0x9 && code != 0xa && code != 0xd) || code == 0xfffe || code == 0xffff
}
