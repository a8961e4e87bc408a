//! Ctrl-C, as the launcher reports it.

use libc::net::{POLLHUP, poll};
use libc::types::pollfd;
use std::env;

/// The environment variable that names the read end of the launcher's pipe. The launcher closes the
/// write end at the first Ctrl-C.
const VARIABLE: &str = "CURLPOOL_INTERRUPT";

/// Returns the descriptor of the launcher's pipe. If the launcher names none, Ctrl-C ends the
/// program at once.
pub(crate) fn interrupt_descriptor(system: &HostRuntime) -> Option<i32> {
    let value = env::var(system, VARIABLE).ok()?;
    value.as_str().parse().ok()
}

/// True if Ctrl-C was pressed. Does not wait (the manual page poll(2)).
pub(crate) fn is_interrupted(descriptor: Option<i32>) -> bool {
    let Some(fd) = descriptor else {
        return false;
    };
    let mut asked = [pollfd {
        fd,
        events: 0,
        revents: 0,
    }];
    poll(&mut asked, 0) > 0 && asked[0].revents & POLLHUP != 0
}
