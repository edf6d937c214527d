//! A program that uses the libraries without the commands. docs/EMBEDDING.md quotes it.
#![tactic(auto)]

mod filter;
mod own_hub;

use anyhow::Result;
use feeds::item::Finding;
use filter::{accepted, verdicts};
use own_hub::on_new_hub;

/// A program: r0 = the span's flags, r0 &= 1, exit. So its verdict is 1 on strong spans, and 0 on others.
static STRONG: &str = "611018000000000057000000010000009500000000000000";

/// One peer writes `abc` and makes `ab` strong; another writes `note` behind it.
static CHANGES: [&str; 2] = [
    "change 1 4\ni 1@1 - 61\ni 2@1 1@1 62\ni 3@1 2@1 63\nm 4@1 strong - <1@1 <3@1\n",
    "change2 2 1\nr 5@2 3@1 4 6e 6f 74 65\n",
];

fn main(rt: HostRuntime) -> Result<()> {
    let alloc = rt.alloc();
    let program = accepted(alloc, STRONG)?;
    for (span, verdict) in verdicts(alloc, &program, &CHANGES)?.iter().enumerate() {
        println!(rt; "span {span}: verdict {verdict}")?;
    }
    for finding in on_new_hub(&rt, alloc, program, &CHANGES)? {
        match finding {
            Finding::Hit {
                version,
                span,
                verdict,
            } => println!(rt; "version {version}: span {span}, verdict {verdict}")?,
            Finding::End { version, spans } => println!(rt; "version {version}: {spans} spans")?,
        }
    }
    Ok(())
}
