//! Lines of a string.

/// The number of the line, from 1, that has the byte behind that many others; that of the end past it.
pub(crate) fn line_at(text: &[u8], before: usize) -> u64 {
    let front = text.get(..before).unwrap_or(text);
    let newlines = front.iter().filter(|byte| **byte == b'\n').count();
    (newlines as u64).saturating_add(1)
}

/// The line, from 1, that begins with a key, blanks, brackets and quotes before it aside; none where no line does.
pub(crate) fn line_of(text: &[u8], key: &str) -> Option<u64> {
    let mut is_start = true;
    for (at, byte) in text.iter().enumerate() {
        let after = text.get(at..)?.strip_prefix(key.as_bytes());
        // it is that of a longer key
        let goes_on =
            matches!(after, Some([b'-' | b'_' | b'a'..=b'z' | b'A'..=b'Z' | b'0'..=b'9', ..]));
        if is_start && after.is_some() && !goes_on {
            return Some(line_at(text, at));
        }
        is_start = *byte == b'\n' || (is_start && b" \t[\"'".contains(byte));
    }
    None
}
