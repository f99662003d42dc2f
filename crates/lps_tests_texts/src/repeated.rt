//! Bytes of parts that are repeated.
use std::alloc::{AllocError, Global};

/// A part, and how many times it stands.
pub type Part = (&'static str, usize);

/// The parts one after the other.
pub fn spelled(alloc: Global, parts: &[Part]) -> Result<Vec<u8>, AllocError> {
    let mut bytes = Vec::new(alloc);
    for (part, count) in parts {
        for _ in 0..*count {
            bytes.extend_from_slice(part.as_bytes())?;
        }
    }
    Ok(bytes)
}
