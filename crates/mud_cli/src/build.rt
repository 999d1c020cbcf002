//! The version of the programs.

/// The version of the programs, and the output of `rt version` of the toolchain that proved them. `--version` prints it
/// after the program's name. CHANGELOG.md begins with the same number. An unproved build replaces the text after the
/// comma by `unproved`.
pub(crate) const VERSION: &str = "0.1.0, proved with rattle-kit-13f logic dac8208d650f15bf";

/// Returns the version of the programs, without the toolchain.
pub fn version() -> &'static str {
    match VERSION.split_once(',') {
        Some((version, _)) => version,
        None => VERSION,
    }
}
