//! The answer to a row of a table.

use std::process::Abort;

/// Checks the answer to a row.
pub(crate) fn same(rt: &impl Abort, asked: &str, found: &str, wanted: &str) {
    assert!(rt; found == wanted, "{asked}: {found}");
}
