use crate::row::Row;
use safe_text::SafeJson;
use std::alloc::{AllocError, Global};

/// All rows as an array of JSON on one line, and LF. What is not known is null.
pub fn rows_json(alloc: Global, rows: &[Row]) -> Result<String, AllocError> {
    // Writing fails only without memory, since a row does not nest deep.
    let text = serde_json::to_string(alloc, &rows).map_err(|_| AllocError)?;
    let text = SafeJson(&text);
    format!(in alloc; "{text}\n")
}
