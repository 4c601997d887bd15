//! What is told of a row that differs.

use crate::outcome::Outcome;
use crate::row::Row;
use anyhow::Result;

/// Prints the row's name, and how what was found is not what it says.
pub fn print_difference(rt: &HostRuntime, file: &str, row: &Row, found: &Outcome) -> Result<()> {
    let wanted = &row.wanted;
    println!(rt; "{file}: {}", row.name)?;
    if found.status != wanted.status {
        println!(rt; "  status {}, not {}", found.status, wanted.status)?;
    }
    print_texts(rt, "output", &found.output, &wanted.output)?;
    print_texts(rt, "note", &found.note, &wanted.note)?;
    if found.left != wanted.left {
        println!(rt; "  {} bytes left, not {}", found.left, wanted.left)?;
    }
    Ok(())
}

/// Prints the first line in which two texts differ, where one does.
fn print_texts(rt: &HostRuntime, what: &str, found: &[u8], wanted: &[u8]) -> Result<()> {
    if found == wanted {
        return Ok(());
    }
    let alloc = rt.alloc();
    let found = String::from_utf8_lossy(alloc, found)?;
    let wanted = String::from_utf8_lossy(alloc, wanted)?;
    let mut lines = wanted.split('\n');
    let mut number = 0u32;
    for line in found.split('\n') {
        number = number.saturating_add(1);
        let other = lines.next().unwrap_or("");
        if line != other {
            println!(rt; "  {what} line {number}: {line:?}, not {other:?}")?;
            return Ok(());
        }
    }
    println!(rt; "  {what} of {} bytes, not {}", found.len(), wanted.len())?;
    Ok(())
}
