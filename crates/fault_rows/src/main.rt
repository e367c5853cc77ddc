//! Prints how the top call ends where one read or one write fails, for each of them: the code, what was written, and the
//! report. `stdout` holds what has to come.
#![tactic(auto)]

mod runs;
mod tables;

use rdf_terms::Memory;
use std::alloc::Global;
use std::io;
use std::process::ExitCode;

fn rows(alloc: Global) -> Result<Vec<String>, Memory> {
    let mut rows = Vec::new(alloc);
    tables::reads(alloc, &mut rows)?;
    tables::writes(alloc, &mut rows)?;
    tables::reports(alloc, &mut rows)?;
    tables::twice(alloc, &mut rows)?;
    tables::refusals(alloc, &mut rows)?;
    Ok(rows)
}

fn main(rt: HostRuntime) -> io::Result<ExitCode> {
    match rows(rt.alloc()) {
        Ok(rows) => {
            for row in &rows {
                println!(rt; "{row}")?;
            }
            Ok(ExitCode::from(0))
        }
        Err(Memory) => Ok(ExitCode::from(10)),
    }
}
