//! Which program this is.

use std::io::{self, Write};

/// The commit that the program was built of, which a build that is handed out writes here (`scripts/commit`).
const COMMIT: &str = "";

/// The kit that the program is proved with, as `rt version` prints it.
const KIT: &str = "rattle-kit-13f logic dac8208d650f15bf";

/// Writes the program's name, its commit if one was given, and the kit.
pub(crate) fn write_version<W: Write>(writer: &mut W) -> io::Result<()> {
    writer.write_all(b"pfx")?;
    if !COMMIT.is_empty() {
        write!(writer, " {COMMIT}")?;
    }
    writeln!(writer, ", {KIT}")
}
