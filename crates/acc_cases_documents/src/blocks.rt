//! Lines and blocks of a document.
use std::alloc::{AllocError, Global};

/// What a block is indented by.
const INDENT: &str = "    ";

/// The lines of a text.
pub fn lines_of(alloc: Global, text: &str) -> Result<Vec<&str>, AllocError> {
    let mut lines = Vec::new(alloc);
    for line in text.split('\n') {
        lines.push(line)?;
    }
    Ok(lines)
}

/// The lines of a block up to its end, without what they are indented by.
pub fn block(alloc: Global, lines: &[&str]) -> Result<String, AllocError> {
    let mut text = String::new(alloc);
    for line in lines {
        let Some(shown) = line.strip_prefix(INDENT) else {
            return Ok(text);
        };
        text.push_str(shown)?;
        text.push_str("\n")?;
    }
    Ok(text)
}
