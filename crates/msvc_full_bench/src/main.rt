//! Compares the declarations of symbols of Full with rows from outside.
//!
//!     msvc_full_bench < stdin
#![tactic(auto)]

use msvc_demangler::Grammar;
use std::io;

fn main(rt: HostRuntime) -> io::Result<()> {
    msvc_rows::compare(&rt, Grammar::Full)
}
