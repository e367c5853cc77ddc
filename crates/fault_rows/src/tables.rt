//! A row for each read and each write that may fail.
use crate::runs::{Faults, REFUSED, ROOM, SITE, ask, run};
use rdf_terms::Memory;
use std::alloc::Global;

fn one_read(alloc: Global, number: u64, report_room: u64) -> Result<Faults, Memory> {
    let reads = vec![in alloc; number]?;
    Ok(Faults {
        reads,
        room: ROOM,
        report_room,
    })
}

fn rooms(alloc: Global, room: u64, report_room: u64) -> Faults {
    Faults {
        reads: Vec::new(alloc),
        room,
        report_room,
    }
}

fn read_fails(alloc: Global, number: u64) -> Result<String, Memory> {
    let faults = one_read(alloc, number, ROOM)?;
    let name = format!(in alloc; "read {number} fails")?;
    run(alloc, name.as_str(), SITE, faults)
}

/// The read of each number fails: nine take the 129 bytes, one meets the end, and one more is never made.
pub(crate) fn reads(alloc: Global, rows: &mut Vec<String>) -> Result<(), Memory> {
    for number in 0u64..11 {
        rows.push(read_fails(alloc, number)?)?;
    }
    Ok(())
}

fn output_fails(alloc: Global, room: u64) -> Result<String, Memory> {
    let name = format!(in alloc; "room {room}")?;
    run(alloc, name.as_str(), SITE, rooms(alloc, room, ROOM))
}

/// The output takes each number of bytes up to the length of the text, and fails then.
pub(crate) fn writes(alloc: Global, rows: &mut Vec<String>) -> Result<(), Memory> {
    for room in 0u64..91 {
        rows.push(output_fails(alloc, room)?)?;
    }
    Ok(())
}

fn report_fails(alloc: Global, room: u64) -> Result<String, Memory> {
    let name = format!(in alloc; "report's room {room}")?;
    run(alloc, name.as_str(), SITE, rooms(alloc, ROOM, room))
}

/// The report takes each number of bytes up to the length of its text, and fails then.
pub(crate) fn reports(alloc: Global, rows: &mut Vec<String>) -> Result<(), Memory> {
    for room in 0u64..58 {
        rows.push(report_fails(alloc, room)?)?;
    }
    Ok(())
}

/// A fault and then one of the report, which takes three bytes: the first one's code stays.
pub(crate) fn twice(alloc: Global, rows: &mut Vec<String>) -> Result<(), Memory> {
    let no_input = one_read(alloc, 0, 3)?;
    rows.push(run(alloc, "read 0 and the report fail", SITE, no_input)?)?;
    let no_site = one_read(alloc, 99, 3)?;
    rows.push(run(alloc, "no site, and the report fails", "site 2\n", no_site)?)?;
    let no_output = rooms(alloc, 50, 3);
    rows.push(run(alloc, "room 50, and the report fails", SITE, no_output)?)?;
    Ok(())
}

/// A query that is refused comes behind the input and the site, and its code stays where the report fails.
pub(crate) fn refusals(alloc: Global, rows: &mut Vec<String>) -> Result<(), Memory> {
    let calm = rooms(alloc, ROOM, ROOM);
    rows.push(ask(alloc, "a refused query", REFUSED, SITE, calm)?)?;
    let failing = one_read(alloc, 99, 3)?;
    rows.push(ask(
        alloc,
        "a refused query, and the report fails",
        REFUSED,
        SITE,
        failing,
    )?)?;
    let no_input = one_read(alloc, 8, 3)?;
    rows.push(ask(
        alloc,
        "a refused query, and read 8 fails",
        REFUSED,
        SITE,
        no_input,
    )?)?;
    let no_site = one_read(alloc, 99, 3)?;
    rows.push(ask(
        alloc,
        "a refused query, and no site",
        REFUSED,
        "site 2\n",
        no_site,
    )?)?;
    Ok(())
}
