//! Pictures and help that cannot be written, and words for which there is no memory.

use crate::running::{ROW, Row, Text, check_all, check_stopped, check_words};
use crate::script_streams::REUSE;
use command_line::Words;

/// Words of pictures that cannot be made or written.
static ROWS: [Row; 2] = [
    Row {
        name: "a picture whose file cannot be made: nothing is run",
        words: "script --picture folder/picture",
        script: REUSE,
        errors: Text::Whole("run: cannot write folder/picture: No such file or directory\n"),
        status: 4,
        ..ROW
    },
    Row {
        name: "a picture that cannot be written, after a fault",
        words: "script --picture full broken",
        output: Text::Whole("opened 0.1 for 1 at 0\n"),
        errors: Text::Whole("line 4: unknown command\nrun: cannot write full\n"),
        status: 4,
        ..ROW
    },
];

#[test]
fn pictures_that_cannot_be_made_or_written(rt: HostRuntime) {
    check_all(&rt, &ROWS);
}

#[test]
fn words_that_could_not_be_had(rt: HostRuntime) {
    let no_memory = Row {
        name: "memory ran out",
        errors: Text::Start("run: out of memory\n"),
        status: 4,
        ..ROW
    };
    let _ = check_words(&rt, Words::NoMemory, &no_memory);
}

#[test]
fn help_that_cannot_be_written(rt: HostRuntime) {
    for &(words, front) in &[("--help", "HTTP/1.1 conne"), ("--version", "curlpool 0.")] {
        let row = Row {
            name: words,
            words,
            errors: Text::Whole("run: cannot write\n"),
            status: 4,
            ..ROW
        };
        check_stopped(&rt, &row, front, false);
        check_stopped(&rt, &row, front, true);
    }
}
