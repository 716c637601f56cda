//! The bytes of a file by its fields, which have blanks between: four bytes in capitals, `b` and a number of one byte, `w` and
//! one of four, `q` and one of eight, `'` and a text after its length of two bytes, `"` and a text after its length of eight
//! (`~` stands for a blank), and `(` .. `)` round fields after their length of eight. A `!` stands before the field that is
//! wrong, or after the last one where one is missing.

use clu_base::{Memory, u16_add, u32_add, u64_add};
use std::alloc::Global;

/// Bytes, and where their fields start. What stands in parentheses is one field.
#[derive(Drop)]
pub struct Fields {
    pub bytes: Vec<u8>,
    pub starts: Vec<usize>,
    /// Where the wrong field starts.
    pub wrong: usize,
    /// Where the fields in parentheses start that are not closed.
    opened: Option<usize>,
}

impl Fields {
    /// The fields of a row.
    pub fn of(alloc: Global, row: &str) -> Result<Box<Fields>, Memory> {
        let fields = Fields {
            bytes: Vec::new(alloc),
            starts: Vec::new(alloc),
            wrong: 0,
            opened: None,
        };
        let mut fields = Box::new(alloc, fields)?;
        for word in row.split(' ') {
            fields.add_marked(word)?;
        }
        Ok(fields)
    }

    fn add_marked(&mut self, word: &str) -> Result<(), Memory> {
        match word.strip_prefix("!") {
            Some(rest) => {
                self.wrong = self.bytes.len();
                self.add(rest)
            }
            None => self.add(word),
        }
    }

    /// Appends the bytes of a field, or begins or ends fields in parentheses.
    fn add(&mut self, word: &str) -> Result<(), Memory> {
        match word {
            "" => Ok(()),
            ")" => {
                self.close();
                Ok(())
            }
            "(" => {
                self.begin()?;
                self.opened = Some(self.bytes.len());
                u64_add(&mut self.bytes, 0)
            }
            _ => {
                self.begin()?;
                self.put(word)
            }
        }
    }

    /// Notes where a field starts.
    fn begin(&mut self) -> Result<(), Memory> {
        if self.opened.is_none() {
            self.starts.push(self.bytes.len())?;
        }
        Ok(())
    }

    fn put(&mut self, word: &str) -> Result<(), Memory> {
        if let Some(number) = word.strip_prefix("b") {
            return Ok(self.bytes.push(number.parse::<u8>().unwrap_or(0))?);
        }
        if let Some(number) = word.strip_prefix("w") {
            return u32_add(&mut self.bytes, number.parse::<u32>().unwrap_or(0));
        }
        if let Some(number) = word.strip_prefix("q") {
            return u64_add(&mut self.bytes, number.parse::<u64>().unwrap_or(0));
        }
        if let Some(text) = word.strip_prefix("'") {
            u16_add(&mut self.bytes, u16::try_from(text.len()).unwrap_or(0))?;
            return Ok(self.bytes.extend_from_slice(text.as_bytes())?);
        }
        if let Some(text) = word.strip_prefix("\"") {
            u64_add(&mut self.bytes, text.len() as u64)?;
            return self.put_text(text.as_bytes());
        }
        Ok(self.bytes.extend_from_slice(word.as_bytes())?)
    }

    fn put_text(&mut self, text: &[u8]) -> Result<(), Memory> {
        for byte in text {
            self.bytes.push(if *byte == b'~' { b' ' } else { *byte })?;
        }
        Ok(())
    }

    /// Writes the length of the fields in parentheses before them.
    fn close(&mut self) {
        if let Some(start) = self.opened {
            let length = self.bytes.len().saturating_sub(start).saturating_sub(8) as u64;
            let mut place = start;
            for byte in length.to_le_bytes() {
                if let Some(there) = self.bytes.get_mut(place) {
                    *there = byte;
                }
                place = place.saturating_add(1);
            }
        }
        self.opened = None;
    }

    /// Where the field starts in which the byte of this number stands.
    pub fn start_round(&self, place: usize) -> usize {
        let mut last = 0;
        for start in self.starts.as_slice() {
            if *start <= place {
                last = *start;
            }
        }
        last
    }
}
