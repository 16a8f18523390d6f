//! The fields of a command, one after another.

use crate::fault::FieldFault;
use std::str;

/// The fields that are left to be read.
#[derive(Drop)]
pub struct Words<'a> {
    rest: &'a [Vec<u8>],
}

impl<'a> Words<'a> {
    /// These fields.
    pub fn new(fields: &'a [Vec<u8>]) -> Words<'a> {
        Words { rest: fields }
    }

    /// Whether none is left.
    pub fn is_empty(&self) -> bool {
        self.rest.is_empty()
    }

    /// The next field.
    pub fn next(&mut self) -> Result<&'a [u8], FieldFault> {
        match self.rest {
            [word, rest @ ..] => {
                self.rest = rest;
                Ok(word.as_slice())
            }
            [] => Err(FieldFault::Invalid),
        }
    }

    /// The next field, as text.
    pub fn text(&mut self) -> Result<&'a str, FieldFault> {
        str::from_utf8(self.next()?).map_err(|_| FieldFault::Invalid)
    }

    /// The number of 64 bits in the next field.
    pub fn long(&mut self) -> Result<u64, FieldFault> {
        self.text()?.parse::<u64>().map_err(|_| FieldFault::Invalid)
    }

    /// The number of 32 bits in the next field, or none where it is `-`.
    pub fn optional(&mut self) -> Result<Option<u32>, FieldFault> {
        match self.text()? {
            "-" => Ok(None),
            text => Ok(Some(text.parse::<u32>().map_err(|_| FieldFault::Invalid)?)),
        }
    }

    /// The number of 32 bits in the next field.
    pub fn number(&mut self) -> Result<u32, FieldFault> {
        self.text()?.parse::<u32>().map_err(|_| FieldFault::Invalid)
    }

    /// The number of 64 bits with a sign in the next field.
    pub fn whole(&mut self) -> Result<i64, FieldFault> {
        self.text()?.parse::<i64>().map_err(|_| FieldFault::Invalid)
    }
}
