//! Fields that write numbers.

use crate::fault::FieldFault;
use std::alloc::Global;
use std::str;

/// The number of 32 bits in a field.
pub fn read_number(field: &[u8]) -> Result<u32, FieldFault> {
    let Ok(text) = str::from_utf8(field) else {
        return Err(FieldFault::Invalid);
    };
    text.parse::<u32>().map_err(|_| FieldFault::Invalid)
}

/// The numbers of 32 bits in a field, with one blank between two.
pub fn read_numbers(alloc: Global, field: &[u8]) -> Result<Vec<u32>, FieldFault> {
    let mut numbers = Vec::new(alloc);
    if field.is_empty() {
        return Ok(numbers);
    }
    for word in field.split(|byte| *byte == b' ') {
        numbers.push(read_number(word)?)?;
    }
    Ok(numbers)
}
