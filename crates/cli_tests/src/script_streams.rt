//! What readers and writers leave that fail.

use script_engine::run_script;
use script_text::{FaultKind, ScriptFault};
use std::alloc::Global;
use std::io;
use std::io::{Read, Write};
use streams::FailureCounted;

/// A script of a connection that is used again and then abandoned, and its transcript.
pub const REUSE: &str =
    "limits 1 0 4\nsite http://a.test/\nget 1 0 0 at 0\nback 1 0 keep at 2\nget 2 0 0 at 3\n\
    drop 2 0 at 4\nlook 0\n";

pub const REUSED: &str = "opened 0.1 for 1 at 0\nreturned 0.1 by 1 at 2\nleased 0.1 to 2 at 3\n\
    closed 0.1 dropped at 4\nhost 0 open 0 idle 0 leased 0 waiting 0 queued no\n";

// Gives a few bytes and then fails.
#[derive(Drop)]
pub struct Failing {
    pub bytes: &'static [u8],
}

impl Read for Failing {
    fn read(&mut self, buf: &mut [u8]) -> io::Result<usize> {
        if self.bytes.is_empty() || buf.is_empty() {
            return Err(io::ErrorKind::Interrupted.into());
        }
        buf[0] = self.bytes[0];
        self.bytes = &self.bytes[1..];
        Ok(1)
    }
}

#[test]
fn a_reader_that_fails_in_the_middle(rt: HostRuntime) {
    let mut reader = FailureCounted::new(Failing {
        bytes: b"limits 4 0 4\nlook 0\n",
    });
    let mut out = Vec::new(rt.alloc());
    let fault = ScriptFault {
        line: 0,
        kind: FaultKind::Read,
    };
    let result = run_script(rt.alloc(), false, &mut reader, &mut out);
    assert!(rt; result == Err(fault) && out.is_empty());
}

#[test]
fn a_polled_source_is_ready_for_bytes_and_the_end(rt: HostRuntime) {
    let (reader, mut writer) = io::pipe(&rt).expect(&rt, "a pipe");
    let mut input = FailureCounted::with_descriptor(reader);
    assert!(rt; !input.is_ready());
    writer.write_all(b"x").expect(&rt, "a write");
    assert!(rt; input.is_ready());
    let mut piece = [0; 2];
    assert!(rt; input.read(&mut piece) == Ok(1) && !input.is_ready());
    drop(writer);
    assert!(rt; input.is_ready());
}

/// Takes what goes on as expected, a byte at a time, and then no byte, or fails.
#[derive(Drop)]
pub struct Expecting {
    pub rest: &'static [u8],
    takes_none: bool,
}

impl Expecting {
    pub fn new(text: &'static str, takes_none: bool) -> Expecting {
        Expecting {
            rest: text.as_bytes(),
            takes_none,
        }
    }
}

impl Write for Expecting {
    fn write(&mut self, buf: &[u8]) -> io::Result<usize> {
        if self.rest.is_empty() || buf.is_empty() || self.rest[0] != buf[0] {
            if self.takes_none {
                return Ok(0);
            }
            return Err(io::ErrorKind::Interrupted.into());
        }
        self.rest = &self.rest[1..];
        Ok(1)
    }

    fn flush(&mut self) -> io::Result<()> {
        Ok(())
    }
}

// Runs a script onto that writer.
fn run_onto(alloc: Global, script: &str, writer: &mut Expecting) -> Result<(), ScriptFault> {
    let mut reader = script.as_bytes();
    run_script(alloc, false, &mut reader, &mut FailureCounted::new(writer))
}

#[test]
fn a_writer_that_fails_in_the_middle(rt: HostRuntime) {
    let fault = ScriptFault {
        line: 4,
        kind: FaultKind::Write,
    };
    for &takes_none in &[false, true] {
        let mut writer = Expecting::new("opened 0.1 for 1 at 0\nreturned 0", takes_none);
        let result = run_onto(rt.alloc(), REUSE, &mut writer);
        assert!(rt; result == Err(fault) && writer.rest.is_empty());
    }
}
