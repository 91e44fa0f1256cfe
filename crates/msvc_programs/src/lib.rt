//! The programs `undname` and `msvcfilt` over any streams: when they read and write, what they print at a fault, and
//! their exit statuses.
#![tactic(auto)]

mod faults;
mod filters;
mod run;

pub use filters::{Host, msvcfilt};
pub use msvc_filter::How;
pub use run::undname;
