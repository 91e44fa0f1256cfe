//! Compares with rows the part of a text that is read. Each line of standard input is a text, the number of its bytes
//! that are read, and the number of nodes of its tree, or a text and the word `refused`, separated by tabs. With one
//! node less allowed the calls must name that limit. Prints each row that differs; the last line has the counts.

use crate::answers::{Answer, all_answers};
use crate::within::{fewest_nodes, wants_nodes};
use msvc_demangler::Demangler;
use std::alloc::Global;
use std::io;

pub fn compare(rt: &HostRuntime) -> io::Result<()> {
    let mut agree = 0u64;
    let mut differ = 0u64;
    let mut demangler = Demangler::new(rt.alloc());
    for line in rt.lines(rt.alloc()) {
        let line = line?;
        if agrees(rt.alloc(), &mut demangler, line.as_str()) {
            agree = agree.saturating_add(1);
        } else {
            differ = differ.saturating_add(1);
            println!(rt; "{line}")?;
        }
    }
    println!(rt; "{agree} texts are read so far, {differ} otherwise")
}

/// Returns whether as much of the text is read, and as many nodes, as the row states.
fn agrees(alloc: Global, demangler: &mut Demangler, row: &str) -> bool {
    let mut fields = row.splitn(3, '\t');
    let text = fields.next().unwrap_or("");
    let wanted = fields.next().unwrap_or("");
    let count = fields.next().unwrap_or("");
    match all_answers(alloc, demangler, text) {
        Answer::Rejected => wanted == "refused",
        Answer::Accepted { bytes, .. } => {
            let nodes = fewest_nodes(demangler, text);
            wanted.parse() == Ok(bytes)
                && count.parse() == Ok(nodes)
                && wants_nodes(alloc, demangler, text, nodes.saturating_sub(1))
        }
        Answer::Contradicted => false,
    }
}
