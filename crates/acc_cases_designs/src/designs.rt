//! Designs that are read.
use acc_base::designs::Design;
use acc_parse::{ParseError, parse};
use std::alloc::{AllocError, Global};

/// The design of a text, if it is one.
pub fn read(alloc: Global, text: &str) -> Result<Option<Design>, AllocError> {
    match parse(alloc, text.as_bytes()) {
        Ok(design) => Ok(Some(design)),
        Err(ParseError::Memory) => Err(AllocError),
        Err(_) => Ok(None),
    }
}

/// What is said where a text is no design.
pub fn no_design(alloc: Global) -> Result<String, AllocError> {
    String::from_str(alloc, "no design\n")
}
