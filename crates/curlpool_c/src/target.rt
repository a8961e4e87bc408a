//! Where a URL leads to.

ghost use Rattle.std.specs.Prelude.{◌≡◌, true, false, IfErr, IfOk};
ghost use Rattle.conn_key.specs.Target.{GivesTarget};
ghost use Rattle.curlpool_c.specs.Targets.{IsUnread, TellsTarget, WritesBoth, WritesOf};

use crate::status::{NOT_TEXT, OK, SMALL, key_status};
use crate::structs::CTarget;
use conn_key::{CountedMemory, Target, read_target};
use std::alloc::Global;

// Writes one text, and another behind it, if both fit.
fn put_both(buffer: &mut [u8], first: &[u8], second: &[u8]) -> bool
    ensures yes { result ≡ true → WritesBoth buffer.old buffer.new first.now second.now }
    ensures no { result ≡ false → buffer.new ≡ buffer.old }
{
    if first.len() > buffer.len() || second.len() > buffer.len() - first.len() {
        return false;
    }
    let both = first.len() + second.len();
    buffer[..first.len()].copy_from_slice(first);
    buffer[first.len()..both].copy_from_slice(second);
    true
}

// Writes a target, if it fits.
fn write_target(read: &Target, buffer: &mut [u8], told: &mut CTarget) -> bool
    ensures yes { result ≡ true → WritesOf read.now buffer.old buffer.new told.new }
    ensures small { result ≡ false → buffer.new ≡ buffer.old }
    ensures same { result ≡ false → told.new ≡ told.old }
{
    let (host, path) = (read.host.as_bytes(), read.path.as_bytes());
    if !put_both(buffer, host, path) {
        return false;
    }
    *told = CTarget {
        host_length: host.len(),
        path_length: path.len(),
        port: read.port,
    };
    true
}

// The target of a text.
fn read_text(alloc: Global, url: &[u8]) -> Result<Target, u32>
    ensures ok { IfOk result (GivesTarget url.now) }
    ensures err { IfErr result (IsUnread url.now) }
{
    let Ok(text) = str::from_utf8(url) else {
        return Err(NOT_TEXT);
    };
    let mut memory = CountedMemory::new(alloc);
    match read_target(&mut memory, text) {
        Ok(read) => Ok(read),
        Err(error) => Err(key_status(error)),
    }
}

// Reads a URL: its host and its path into the buffer.
pub(crate) fn tell_target(alloc: Global, url: &[u8], buffer: &mut [u8], target: &mut CTarget) -> u32
    ensures { TellsTarget url.now result buffer.old buffer.new target.old target.new }
{
    match read_text(alloc, url) {
        Ok(read) => {
            if write_target(&read, buffer, target) {
                OK
            } else {
                SMALL
            }
        }
        Err(status) => status,
    }
}
