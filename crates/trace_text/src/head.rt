//! The head of a trace: its order, its limits and its sites.

ghost use Rattle.std.specs.Prelude.{◌≡◌, ◌++◌, OnOk, string_bytes};
ghost use Rattle.trace_text.specs.HostLines.{limits_lines, site_line};

use std::alloc::AllocError;
use std::fmt::Write;

/// Adds the first lines of a trace: its lines are in order within each host alone (`order host`),
/// and these are its limits: the most open connections of one host and of all hosts, 0 for no
/// limit, and the most that are kept idle.
///
/// # Errors
///
/// There is no memory for them.
pub fn add_limits(text: &mut String, host: u32, total: u32, kept: u32) -> Result<(), AllocError>
    ensures { OnOk result (string_bytes text.new ≡ string_bytes text.old
        ++ limits_lines host total kept) }
{
    write!(text, "order host\nlimits {host} {total} {kept}\n")
}

/// Adds the line of the next site: the host and the port of its `http` URL.
///
/// # Errors
///
/// There is no memory for it.
pub fn add_site(text: &mut String, host: &str, port: u16) -> Result<(), AllocError>
    ensures { OnOk result (string_bytes text.new
        ≡ string_bytes text.old ++ site_line host.now port) }
{
    write!(text, "site http://{host}:{port}/\n")
}
