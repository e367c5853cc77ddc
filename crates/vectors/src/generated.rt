use crate::cases::no_case;
use rdf_terms::Memory;
use site_core::{make_site, write_site};
use std::alloc::Global;

fn site_text(alloc: Global, n: u64, step: u64) -> Result<String, Memory> {
    if n < 1 || n > 2000 {
        return no_case(alloc);
    }
    let site = make_site(alloc, n, step)?;
    let text = write_site(alloc, &site)?;
    let digits = hex::encode(alloc, text.as_slice())?;
    Ok(format!(in alloc; "x{digits}")?)
}

/// The text of the site that two numbers stand for.
pub fn answer(alloc: Global, line: &str) -> Result<String, Memory> {
    let Some((n, step)) = line.split_once(' ') else {
        return no_case(alloc);
    };
    match (n.parse::<u64>(), step.parse::<u64>()) {
        (Ok(n), Ok(step)) => site_text(alloc, n, step),
        _ => no_case(alloc),
    }
}
