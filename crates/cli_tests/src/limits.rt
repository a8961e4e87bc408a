//! The longest script, the most sites, and how faults are printed.

use crate::checks::check_eq;
use script_engine::run_bytes;
use script_text::{FaultKind, ScriptFault};
use std::alloc::{AllocError, Global};

// A script of so many sites, with that after them.
fn many_sites(alloc: Global, count: u32, others: &str) -> Result<String, AllocError> {
    let mut script = String::from_str(alloc, "limits 0 0 4\n")?;
    for port in 1..=count {
        let line = format!(in alloc; "site http://a.test:{port}/\n")?;
        script.push_str(&line)?;
    }
    script.push_str(others)?;
    Ok(script)
}

#[test]
fn sites_have_a_limit(rt: HostRuntime) {
    let others = "site http://A.test:7/b\nget 1 1023 0 at 0\nget 1 6 0 at 0\nget 1 1024 0 at 0\n";
    let script = many_sites(rt.alloc(), 1_024, others).expect(&rt, "memory");
    let mut out = Vec::new(rt.alloc());
    assert!(rt; run_bytes(rt.alloc(), script.as_bytes(), &mut out) == Ok(()));
    let transcript = "opened 1023.1 for 1 at 0\nopened 6.1 for 1 at 0\nrefused bad-site\n";
    check_eq(&rt, out.as_slice(), transcript.as_bytes());
    let script = many_sites(rt.alloc(), 1_025, "").expect(&rt, "memory");
    let fault = ScriptFault {
        line: 1_026,
        kind: FaultKind::TooManySites,
    };
    assert!(rt; run_bytes(rt.alloc(), script.as_bytes(), &mut out) == Err(fault));
}

#[test]
fn scripts_have_a_limit(rt: HostRuntime) {
    let long = ScriptFault {
        line: 0,
        kind: FaultKind::ScriptTooLong,
    };
    for &(len, expected) in &[(1_048_576usize, Ok(())), (1_048_577, Err(long))] {
        let script = vec![in rt.alloc(); b'\n'; len].expect(&rt, "memory");
        let mut out = Vec::new(rt.alloc());
        let result = run_bytes(rt.alloc(), script.as_slice(), &mut out);
        assert!(rt; result == expected && out.is_empty(), "{len}");
    }
}

/// The faults with their texts.
static TEXTS: [(FaultKind, &str); 11] = [
    (FaultKind::Memory, "line 3: out of memory"),
    (FaultKind::Read, "line 3: cannot read"),
    (FaultKind::Write, "line 3: cannot write"),
    (FaultKind::ScriptTooLong, "line 3: script too long"),
    (FaultKind::LineTooLong, "line 3: line too long"),
    (FaultKind::Unknown, "line 3: unknown command"),
    (FaultKind::Form, "line 3: wrong form"),
    (FaultKind::Place, "line 3: wrong place"),
    (FaultKind::BadLimits, "line 3: bad limits"),
    (FaultKind::BadSite, "line 3: bad site"),
    (FaultKind::TooManySites, "line 3: too many sites"),
];

#[test]
fn faults_have_their_texts(rt: HostRuntime) {
    for &(kind, text) in &TEXTS {
        let fault = ScriptFault { line: 3, kind };
        let shown = fault.to_string(rt.alloc()).expect(&rt, "memory");
        check_eq(&rt, shown.as_str(), text);
    }
}
