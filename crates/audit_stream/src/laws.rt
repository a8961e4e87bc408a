//! What holds of every script.

ghost use Rattle.audit_stream.specs.Scripts.{NoScriptBreaksARule};

use log_judge::laws::rules_are_those_of_legal_logs;
use script_engine::law::scripts_keep_the_law;

/// No entry of the logs behind a script's transcript broke a rule as it came: a monitor takes each
/// of them.
pub fn scripts_break_no_rule()
    ensures { NoScriptBreaksARule }
{
    scripts_keep_the_law();
    rules_are_those_of_legal_logs();
}
