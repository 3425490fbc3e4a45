//! What is printed of values.

use std::alloc::Global;
use std::fmt::Display;

/// Whether each of them is printed so.
pub fn are_printed<F: Display>(alloc: Global, rows: &[(F, &str)]) -> bool {
    rows.iter().all(|(value, text)| {
        format!(in alloc; "{value}").is_ok_and(|printed| printed.as_str() == *text)
    })
}
