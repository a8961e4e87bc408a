//! A machine that has no memory for one of its commands.

use crate::script_streams::{REUSE, REUSED};
use script_engine::{Engine, Machine, SCRIPT_LIMIT, run_lines};
use script_text::{Command, FaultKind, ScriptFault};
use std::alloc::Global;

/// An engine without memory for its nth command, counted from one.
struct Forgetful {
    engine: Engine,
    commands: u32,
    nth: u32,
}

impl Machine for Forgetful {
    ghost run = { λ machine. machine.engine };

    fn answer(&mut self, command: Command<'_>) -> Result<String, FaultKind> {
        self.commands = self.commands.saturating_add(1);
        if self.commands == self.nth {
            return Err(FaultKind::Memory);
        }
        self.engine.answer(command)
    }

    fn end_of_script(&mut self) -> Result<(), FaultKind> {
        self.engine.end_of_script()
    }
}

// Runs a script without memory for its nth command.
fn run_until(alloc: Global, script: &[u8], nth: u32, out: &mut Vec<u8>) -> Result<(), ScriptFault> {
    if script.len() > SCRIPT_LIMIT {
        return Err(ScriptFault {
            line: 0,
            kind: FaultKind::ScriptTooLong,
        });
    }
    let engine = match Engine::new(alloc) {
        Ok(engine) => engine,
        Err(kind) => return Err(ScriptFault { line: 0, kind }),
    };
    let mut machine = Forgetful {
        engine,
        commands: 0,
        nth,
    };
    let result = run_lines(alloc, false, &mut machine, script, out);
    let Forgetful {
        engine,
        commands: _,
        nth: _,
    } = machine;
    let _ = engine.end();
    result
}

// Each line of the script is a command, and each from the third one on writes a line.
#[test]
fn a_machine_has_no_memory_for_a_command(rt: HostRuntime) {
    let lines: u32 = 7;
    for nth in 1..=lines + 1 {
        let mut out = Vec::new(rt.alloc());
        let result = run_until(rt.alloc(), REUSE.as_bytes(), nth, &mut out);
        let expected = if nth > lines {
            Ok(())
        } else {
            Err(ScriptFault {
                line: nth,
                kind: FaultKind::Memory,
            })
        };
        assert!(rt; result == expected, "command {nth}");
        let written = out.iter().filter(|byte| **byte == b'\n').count();
        assert_eq!(rt; written, nth.saturating_sub(3) as usize, "command {nth}");
        assert!(rt; REUSED.as_bytes().starts_with(&out), "command {nth}");
    }
}
