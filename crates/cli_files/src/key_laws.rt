//! What is true of keys' strings.

ghost use Rattle.cli_files.specs.KeyTexts.{WrittenIsRead};

/// The text of a key is read as that key.
pub fn written_is_read()
    ensures { WrittenIsRead }
{}
