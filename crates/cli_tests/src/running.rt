//! Runs the program, and compares what it writes and answers with a row.

ghost use Rattle.std.specs.Prelude.{⊤};
ghost use Rattle.streams.specs.Streams.{CanCount};

use crate::audits::BROKEN;
use crate::loads::FakeLoader;
use crate::networks::FakeNetwork;
use crate::script_streams::Expecting;
use cli::{System, run_program};
use command_line::{CountedArgsAlloc, Words};
use crawl::NetworkFault;
use load_run::LoadFault;
use std::alloc::{AllocError, AllocGlobal, Global};
use std::io::{self, Write};
use std::process::Abort;
use std::str;
use streams::{FailureCounted, Files, Sink};

/// A text, or what it begins with.
#[derive(Clone, Copy)]
pub enum Text {
    Whole(&'static str),
    Start(&'static str),
}

/// What the program is started with, what it then writes, and the status that it answers.
#[derive(Clone, Copy)]
pub struct Row {
    pub name: &'static str,
    /// The words after the program's name, with spaces between them.
    pub words: &'static str,
    /// What standard input gives.
    pub script: &'static str,
    /// Why the network can't be opened, if it can't.
    pub network: Option<NetworkFault>,
    /// What carrying out a load gives.
    pub load: Result<&'static str, LoadFault>,
    pub output: Text,
    pub errors: Text,
    pub status: u8,
}

/// The program is started without words.
pub const ROW: Row = Row {
    name: "",
    words: "",
    script: "",
    network: None,
    load: Ok("all\n"),
    output: Text::Whole(""),
    errors: Text::Whole(""),
    status: 0,
};

/// The number of `No such file or directory` (errno(3)).
const NO_SUCH_FILE: i32 = 2;

/// URLs, a line each.
const URLS: &str = "http://127.0.0.1/f\nhttp://127.0.0.1/gg\n";

/// Files in memory: a script that ends at a fault, and URLs. Files can be made of two names, one of
/// which is full.
#[derive(Drop)]
pub struct FilesInMemory;

impl Files for FilesInMemory {
    type File = &'static [u8];

    type Made = FailureCounted<FakeFile>;

    ghost opens = { λ _ _ _ _. ⊤ };

    fn open(&mut self, name: &str) -> io::Result<&'static [u8]> {
        match name {
            "broken" => Ok(BROKEN.as_bytes()),
            "urls" => Ok(URLS.as_bytes()),
            _ => Err(io::Error::from_raw_os_error(NO_SUCH_FILE)),
        }
    }

    fn create(&self, name: &str) -> io::Result<FailureCounted<FakeFile>> {
        match name {
            "picture" => Ok(FailureCounted::new(FakeFile { is_full: false })),
            "full" => Ok(FailureCounted::new(FakeFile { is_full: true })),
            _ => Err(io::Error::from_raw_os_error(NO_SUCH_FILE)),
        }
    }
}

/// A file that takes all, or nothing.
#[derive(Drop)]
pub struct FakeFile {
    is_full: bool,
}

impl Write for FakeFile {
    fn write(&mut self, buf: &[u8]) -> io::Result<usize> {
        if self.is_full {
            return Ok(0);
        }
        Ok(buf.len())
    }

    fn flush(&mut self) -> io::Result<()> {
        Ok(())
    }
}

/// The words with which the program is started, of a text with spaces between them.
pub fn words_of(alloc: Global, text: &str) -> Result<Words, AllocError> {
    let mut words = Vec::new(alloc);
    words.push(String::from_str(alloc, "curlpool")?)?;
    for word in text.split(' ') {
        if !word.is_empty() {
            words.push(String::from_str(alloc, word)?)?;
        }
    }
    Ok(Words::Given(words))
}

/// The system of a test. Its files are in memory.
pub type TestSystem<'a, W> = System<FilesInMemory, FakeNetwork, &'a [u8], W, Vec<u8>>;

/// Runs the program with these words and that script on standard input, which is no terminal, next
/// to the files `broken` and `urls`. Returns its status, and the system after the run.
pub fn run<'a, W: Sink>(
    alloc: Global,
    words: Words,
    script: &'a str,
    network: FakeNetwork,
    loader: &mut FakeLoader<'_>,
    output: W,
) -> (u8, TestSystem<'a, W>)
    requires { CanCount (W.sink output) }
{
    let mut memory = CountedArgsAlloc::new(alloc);
    let mut system = System {
        files: FilesInMemory,
        network,
        input: script.as_bytes(),
        is_typed: false,
        output,
        errors: Vec::new(alloc),
    };
    let load = |alloc, plan| loader.load(alloc, plan);
    let status = run_program(alloc, &mut memory, words, load, &mut system);
    (status, system)
}

// That bytes are the text of the row with that name.
fn check_text(rt: &impl Abort, name: &str, bytes: &[u8], expected: Text) {
    let text = str::from_utf8(bytes).unwrap_or("no text");
    let is_expected = match expected {
        Text::Whole(whole) => text == whole,
        Text::Start(start) => text.starts_with(start),
    };
    assert!(rt; is_expected, "{name}: {text}");
}

/// That the program does what the row says, started with these words.
pub fn check_words<R: Abort + AllocGlobal>(
    rt: &R,
    words: Words,
    row: &Row,
) -> (FakeNetwork, FakeLoader<'static>) {
    let network = FakeNetwork::new(rt.alloc(), row.network);
    let mut loader = FakeLoader::new(row.load);
    let output = Vec::new(rt.alloc());
    let (status, system) = run(rt.alloc(), words, row.script, network, &mut loader, output);
    check_text(rt, row.name, system.errors.as_slice(), row.errors);
    check_text(rt, row.name, system.output.as_slice(), row.output);
    assert_eq!(rt; status, row.status, "{}", row.name);
    (system.network, loader)
}

/// That the program does what the row says.
pub fn check<R: Abort + AllocGlobal>(rt: &R, row: &Row) -> (FakeNetwork, FakeLoader<'static>) {
    let words = words_of(rt.alloc(), row.words).expect(rt, "memory");
    check_words(rt, words, row)
}

/// That the program does what the row says, and writes just that onto an output that then fails, or
/// takes no byte.
pub fn check_stopped<R: Abort + AllocGlobal>(
    rt: &R,
    row: &Row,
    written: &'static str,
    takes_none: bool,
) {
    let words = words_of(rt.alloc(), row.words).expect(rt, "memory");
    let mut writer = Expecting::new(written, takes_none);
    let network = FakeNetwork::new(rt.alloc(), row.network);
    let mut loader = FakeLoader::new(row.load);
    let output = FailureCounted::new(&mut writer);
    let (status, system) = run(rt.alloc(), words, row.script, network, &mut loader, output);
    check_text(rt, row.name, system.errors.as_slice(), row.errors);
    assert_eq!(rt; status, row.status, "{}", row.name);
    drop(system);
    assert!(rt; writer.rest.is_empty(), "{}", row.name);
}

/// That the program does what the rows say.
pub fn check_all<R: Abort + AllocGlobal>(rt: &R, rows: &[Row]) {
    for row in rows {
        let _ = check(rt, row);
    }
}
