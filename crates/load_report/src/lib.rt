//! The report of a load, as a summary, as JSON and as a drawing, and the account of its cache as
//! text.
#![tactic(auto)]

mod account;
mod account_counts;
mod account_lines;
mod account_sums;
mod failing;
mod json;
mod log_scale;
mod picture;
mod picture_buckets;
mod picture_counts;
mod picture_latencies;
mod picture_rates;
mod plot;
mod rates;
mod report_numbers;
mod reporting;
mod style;
mod summary;
mod time;
mod worked;

pub use account::{report, report_of, report_with};
pub use account_counts::count_part;
pub use account_sums::{JobSums, site_totals, totals};
pub use conn_log::Counts;
pub use failing::fails_above;
pub use json::json_text;
pub use picture::picture_of;
pub use report_numbers::{
    Bucket, Connections, HostRun, IntervalLatency, IntervalReport, JobReport, Latencies,
    LoadReport, LoadRun, OptionValue, SaidOption,
};
pub use summary::Summary;
pub use worked::worked_reports;
