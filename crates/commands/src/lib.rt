//! Input and exit statuses of the program's commands: plans of crawls and loads, URLs and their
//! targets, address overrides, messages for files, and the kind of the program's build.
#![tactic(auto)]

mod build;
mod crawl_options;
mod crawl_plan;
mod file_fault;
mod load_job;
mod load_limits;
mod load_plan;
mod load_settings;
mod printable;
mod resolved;
mod status;
mod url;

pub use build::{BUILD, Build, VERSION, version};
pub use crawl_options::{CrawlFlags, CrawlOptions, UrlFile};
pub use crawl_plan::CrawlPlan;
pub use file_fault::{FileAction, file_fault_text, write_file_fault};
pub use load_job::{job_of, method_of};
pub use load_limits::LoadOptions;
pub use load_plan::LoadPlan;
pub use load_settings::{LoadFlags, LoadNumbers};
pub use printable::{Escaped, has_unprintable, is_unprintable, write_escaped};
pub use resolved::{Resolved, resolved_of};
pub use status::Status;
pub use url::{CrawlUrl, UrlFault, url_target};
