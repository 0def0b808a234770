//! Words that wait for the end of their text.

/// The arguments in a line, and the text after it so far.
#[derive(Drop)]
pub struct Waiting<'a> {
    /// The arguments.
    pub words: Vec<&'a str>,
    /// The lines so far, each with its newline.
    pub text: Vec<u8>,
}
