//! Mappings with the same abstraction.

use crate::pool::Pool;
use abstraction_domain::ClassRow;
use abstraction_mapping::Mapping;

/// Whether the rows are those of the variables of a pattern, in order, and each value has a class of its own.
fn are_whole(rows: &[ClassRow], pattern: &[u32]) -> bool {
    if rows.len() != pattern.len() {
        return false;
    }
    rows.iter().zip(pattern).all(|(row, variable)| {
        row.variable() == *variable as usize && row.class_count() == row.classes().len()
    })
}

/// Whether one mapping is a pattern, and the other has each value of its variables in a class of its own.
fn is_pattern_of(mapping: &Mapping, other: &Mapping) -> bool {
    match (mapping, other) {
        (Mapping::Domains(rows), Mapping::Pattern(pattern)) => are_whole(rows, pattern),
        (Mapping::Pattern(pattern), Mapping::Domains(rows)) => are_whole(rows, pattern),
        _ => false,
    }
}

/// Returns whether a mapping of another form in the pool has the same abstraction.
pub(crate) fn has_abstraction(pool: &Pool<'_>, mapping: &Mapping) -> bool {
    pool.mappings()
        .iter()
        .any(|other| is_pattern_of(mapping, other))
}
