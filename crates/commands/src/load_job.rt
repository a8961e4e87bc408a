//! The job of a target.

ghost use Rattle.std.specs.Prelude.{◌≡◌};
ghost use Rattle.commands.specs.LoadJob.{method_said, url_job};

use crate::load_settings::LoadFlags;
use conn_key::Target;
use conn_log::Want;
use exchange::Job;
use persistence::Method;

/// Returns the method of the requests.
pub fn method_of(head: bool) -> Method
    ensures { result ≡ method_said head }
{
    if head { Method::Head } else { Method::Get }
}

/// Returns the job of a target.
pub fn job_of(site: u32, target: Target, flags: LoadFlags) -> Job
    ensures { result ≡ url_job flags site target }
{
    Job {
        site,
        want: Want {
            forbid_reuse: flags.forbid_reuse,
            ..Want::of(0)
        },
        method: method_of(flags.head),
        target,
    }
}
