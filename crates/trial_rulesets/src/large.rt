//! Texts at the limits.

use crate::runs::checked;
use std::fmt::Write;
use std::test::Fail;

/// Rulesets, each with what `check` writes: a ruleset's parts, each with how many times it is there, a `%` for a
/// newline. In a part with two `#` these stand for the two bytes of a number that counts from 0. A text that is
/// accepted writes that many lines.
const ROWS: &str = "\
pass~1~ x~65535>refused 12 line 1
pass~1~ x~65536>refused 18 line 1
a = \"x~1~ x~1999~\"%pass~1~ $a~33>refused 18 line 2
a = \"x~1~ x~1999~\"%pass~1~ $a~32>refused 12 line 2
a = ~1~x~4096~%$a%~1>refused 12 line 2
a = ~1~x~4097~%$a%~1>refused 11 line 1
pass from {~1~ 10.0.#.#~32~ } to {~1~ 10.0.#.#~32~ }~1>1024
pass from {~1~ 10.0.#.#~32~ } to {~1~ 10.0.#.#~33~ }~1>refused 18 line 1
pass from {~1~ 10.0.#.#~256~ } to {~1~ 10.0.#.#~257~ }~1>refused 18 line 1
pass%~1024>1024
pass%~1024~block%~1>refused 18 line 1025
pass from {~1~ 10.0.#.#~256~ } to {~1~ fe80::#:#~256~ }~1>refused 14 line 1
pass from {~1~ 10.0.#.#~257~ } to {~1~ fe80::#:#~256~ }~1>refused 18 line 1";

/// How many there are.
const COUNT: usize = 13;

/// A part with the two bytes of a number in place of each `#`, and a newline in place of each `%`.
fn push_part(text: &mut String, part: &str, number: u32) -> Result<(), Fail> {
    let mut byte = number / 256;
    for letter in part.chars() {
        match letter {
            '%' => text.push('\n')?,
            '#' => {
                write!(text, "{byte}")?;
                byte = number % 256;
            }
            _ => text.push(letter)?,
        }
    }
    Ok(())
}

/// The part that many times.
fn push_times(text: &mut String, part: &str, count: u32) -> Result<(), Fail> {
    for number in 0..count {
        push_part(text, part, number)?;
    }
    Ok(())
}

/// The text of a row.
fn push_text(text: &mut String, row: &str) -> Result<(), Fail> {
    let mut words = row.split('~');
    for _ in 0..10 {
        let (Some(part), Some(count)) = (words.next(), words.next()) else {
            return Ok(());
        };
        push_times(text, part, count.parse::<u32>().unwrap_or(0))?;
    }
    Ok(())
}

/// Whether the text is refused with this line; or accepted, and that many lines are written.
fn is_written(rt: &HostRuntime, text: &[u8], wanted: &str) -> bool {
    let (status, out) = checked(rt, text);
    match wanted.parse::<usize>() {
        Ok(lines) => status == 0 && out.iter().filter(|b| **b == b'\n').count() == lines,
        Err(_) => status == 1 && out.strip_suffix(b"\n") == Some(wanted.as_bytes()),
    }
}

/// Whether the row's text is.
fn is_answered(rt: &HostRuntime, row: &str) -> Result<bool, Fail> {
    let (parts, wanted) = row.split_once('>').unwrap_or((row, ""));
    let mut text = String::new(rt.alloc());
    push_text(&mut text, parts)?;
    Ok(is_written(rt, text.as_bytes(), wanted))
}

#[test]
fn tokens_macros_rules_and_combinations_have_limits(rt: HostRuntime) -> Result<(), Fail> {
    let mut count = 0usize;
    for row in ROWS.lines() {
        assert!(rt; is_answered(&rt, row)?, "{row}");
        count = count.saturating_add(1);
    }
    assert!(rt; count == COUNT);
    Ok(())
}
