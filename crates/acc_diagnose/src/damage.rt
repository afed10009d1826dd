//! How to go on with what a damaged journal still holds.
use std::alloc::{AllocError, Global};

/// The place that is told of a journal whose header isn't whole, so that nothing in it counts.
const HEADER: u64 = 2;

/// The place from which a journal can't be read, by the line that is printed; none where it is refused for something else, or where
/// nothing in it counts.
fn damaged_place(alloc: Global, printed: &[u8]) -> Result<Option<u64>, AllocError> {
    let text = String::from_utf8_lossy(alloc, printed)?;
    let number = text.trim_end().strip_prefix("refused journal damaged ");
    let place = number.and_then(|number| number.parse::<u64>().ok());
    Ok(place.filter(|place| *place > HEADER))
}

/// A path as a shell takes it between single quotes.
pub fn between_quotes(alloc: Global, path: &str) -> Result<String, AllocError> {
    Ok(path.replace(alloc, "'", "'\\''")?)
}

/// A line with the commands that keep a copy of the damaged journal at this path, and cut it before its damage: by the line that is
/// printed of it. None where that is no damage, or nothing stands before it.
pub fn cut_line(alloc: Global, path: &str, printed: &[u8]) -> Result<Option<String>, AllocError> {
    let Some(place) = damaged_place(alloc, printed)? else {
        return Ok(None);
    };
    let length = place.saturating_add(1);
    let name = between_quotes(alloc, path)?;
    let line = format!(in alloc;
        "{path}: to go on without the events behind that byte: cp -- '{name}' '{name}.damaged' && truncate -s {length} -- '{name}'\n"
    )?;
    Ok(Some(line))
}
