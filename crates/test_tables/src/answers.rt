//! Answers beside those of a table.

/// Whether the lines of an answer are those that are wanted; in a table they stand with `; ` between them.
pub fn is_answer(wanted: &str, found: &str) -> bool {
    let mut lines = found.lines();
    if wanted.is_empty() {
        return lines.next().is_none();
    }
    for part in wanted.split("; ") {
        match lines.next() {
            Some(line) if line == part => {}
            _ => return false,
        }
    }
    lines.next().is_none()
}
