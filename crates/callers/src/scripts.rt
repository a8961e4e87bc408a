//! Calls that run scripts and audits.

use crate::checks::check_eq;
use audit::Audit;
use script_engine::{run_bytes, run_file};
use script_text::{FaultKind, ScriptFault};
use streams::SystemFiles;

#[test]
fn a_script_in_memory_is_run(rt: HostRuntime) {
    let script = b"limits 1 0 4\nsite http://a.test/\nlook 0\n";
    let mut transcript = Vec::new(rt.alloc());
    let result = run_bytes(rt.alloc(), script.as_slice(), &mut transcript);
    assert!(rt; result == Ok(()));
    check_eq(
        &rt,
        transcript.as_slice(),
        b"host 0 open 0 idle 0 leased 0 waiting 0 queued no\n".as_slice(),
    );
}

#[test]
fn a_script_that_is_missing_is_not_run(rt: HostRuntime) {
    let mut files = SystemFiles::new(&rt);
    let mut transcript = Vec::new(rt.alloc());
    let result = run_file(rt.alloc(), false, &mut files, "", &mut transcript);
    let fault = ScriptFault {
        line: 0,
        kind: FaultKind::Read,
    };
    assert!(rt; result == Err(fault) && transcript.is_empty());
}

#[test]
fn a_new_audit_has_no_findings(rt: HostRuntime) {
    let Ok(audit) = Audit::new(rt.alloc()) else {
        panic!(rt; "no memory");
    };
    check_eq(&rt, audit.findings().len(), 0);
}
