//! Mappings, tables and columns as texts.

ghost use Rattle.std.specs.Prelude.{◌≤◌, ◌^◌};

use abstraction_domain::ClassRow;
use abstraction_mapping::Mapping;
use cert_value::AbstractionTable;
use fdr::FdrTask;
use pdb_patterns::choose_mappings;
use sasfile::read_sas;
use scp::Columns;
use std::alloc::{AllocError, Global};

/// Returns the task of a text with `|` instead of line feeds.
pub(crate) fn task_of(alloc: Global, text: &str) -> Result<Option<FdrTask>, AllocError> {
    let mut bytes = Vec::with_capacity(alloc, text.len())?;
    for byte in text.as_bytes() {
        bytes.push(if *byte == b'|' { b'\n' } else { *byte })?;
    }
    Ok(read_sas(alloc, &bytes).ok())
}

/// Appends a row: the variable, and in parentheses the classes.
fn push_row(alloc: Global, text: &mut String, row: &ClassRow) -> Result<(), AllocError> {
    text.push_str(format!(in alloc; "{}( ", row.variable())?.as_str())?;
    push_numbers(alloc, text, row.classes())?;
    text.push_str(") ")
}

/// Appends the rows.
fn push_rows(alloc: Global, text: &mut String, rows: &[ClassRow]) -> Result<(), AllocError> {
    for row in rows {
        push_row(alloc, text, row)?;
    }
    Ok(())
}

/// Appends the variables of a pattern, or the rows.
fn push_mapping(alloc: Global, text: &mut String, mapping: &Mapping) -> Result<(), AllocError> {
    match mapping {
        Mapping::Pattern(pattern) => push_numbers(alloc, text, pattern),
        Mapping::Domains(rows) => push_rows(alloc, text, rows),
    }
}

/// Appends the mapping, a colon, and the values.
fn push_values(
    alloc: Global,
    text: &mut String,
    table: &AbstractionTable,
) -> Result<(), AllocError> {
    push_mapping(alloc, text, &table.mapping)?;
    text.push(':')?;
    for state in 0..table.values.len() {
        let value = table.values.get(state);
        text.push_str(format!(in alloc; " {value}")?.as_str())?;
    }
    Ok(())
}

/// Appends a semicolon and the shares.
fn push_shares(
    alloc: Global,
    text: &mut String,
    table: &AbstractionTable,
) -> Result<(), AllocError> {
    text.push(';')?;
    for share in &table.shares {
        let part = format!(in alloc; " {}={}", share.operator, share.amount)?;
        text.push_str(part.as_str())?;
    }
    Ok(())
}

/// Returns the tables of the columns, one a line, and a separate line after each column.
pub(crate) fn columns_text(alloc: Global, columns: &Columns<'_>) -> Result<String, AllocError> {
    let mut text = String::new(alloc);
    for column in columns.tables() {
        for table in column {
            push_values(alloc, &mut text, table.table())?;
            push_shares(alloc, &mut text, table.table())?;
            text.push('/')?;
        }
        text.push('/')?;
    }
    Ok(text)
}

/// Returns the mappings with at most `limit` abstract states, one a line.
pub(crate) fn mappings_text(
    alloc: Global,
    task: &FdrTask,
    limit: usize,
) -> Result<String, AllocError>
    requires some { 1 ≤ limit }
    requires small { limit ≤ 2 ^ 24 }
{
    let mut text = String::new(alloc);
    for mapping in &choose_mappings(alloc, task, limit)? {
        push_mapping(alloc, &mut text, mapping)?;
        text.push('/')?;
    }
    Ok(text)
}

/// Appends the numbers, each followed by a blank.
fn push_numbers(alloc: Global, text: &mut String, numbers: &[u32]) -> Result<(), AllocError> {
    for number in numbers {
        text.push_str(format!(in alloc; "{number} ")?.as_str())?;
    }
    Ok(())
}
