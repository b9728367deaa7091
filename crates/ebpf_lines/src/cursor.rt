//! Numbers and texts, one behind the other (DWARF 5, 7.6).

/// Bytes, and the one from which on they are read.
#[derive(Clone, Copy)]
pub(crate) struct Cursor<'a> {
    pub bytes: &'a [u8],
    pub at: usize,
}

impl<'a> Cursor<'a> {
    /// The next byte; `None` behind the last.
    pub fn byte(&mut self) -> Option<u8> {
        let byte = *self.bytes.get(self.at)?;
        self.at = self.at.saturating_add(1);
        Some(byte)
    }

    /// A number of so many bytes, the lowest first.
    pub fn fixed(&mut self, width: usize) -> Option<u64> {
        let mut number: u64 = 0;
        let mut scale: u64 = 1;
        for _ in 0..width {
            let byte = u64::from(self.byte()?);
            number = number.wrapping_add(scale.wrapping_mul(byte));
            scale = scale.wrapping_mul(256);
        }
        Some(number)
    }

    /// A number of any length without a sign (LEB128), by its low 64 bits.
    pub fn unsigned(&mut self) -> Option<u64> {
        let (number, _) = self.digits()?;
        Some(number)
    }

    /// One with a sign, as the word of two's complement.
    pub fn signed(&mut self) -> Option<u64> {
        let (number, behind) = self.digits()?;
        let is_negative = number.wrapping_mul(2) >= behind && behind > 0;
        Some(if is_negative {
            number.wrapping_sub(behind)
        } else {
            number
        })
    }

    /// The digits of a number of any length, 7 bits each, and the first number that has a digit more; 0 where that has no 64 bits.
    fn digits(&mut self) -> Option<(u64, u64)> {
        let mut number: u64 = 0;
        let mut scale: u64 = 1;
        for _ in 0..self.bytes.len() {
            let byte = self.byte()?;
            let digit = scale.wrapping_mul(u64::from(byte % 128));
            number = number.wrapping_add(digit);
            scale = scale.wrapping_mul(128);
            if byte < 128 {
                return Some((number, scale));
            }
        }
        None
    }

    /// Leaves out so many bytes.
    pub fn skip(&mut self, count: u64) -> Option<()> {
        let at = (self.at as u64).saturating_add(count);
        if at > self.bytes.len() as u64 {
            return None;
        }
        self.at = at as usize;
        Some(())
    }

    /// A text, behind which a 0 stands.
    pub fn text(&mut self) -> Option<&'a [u8]> {
        let text = text_at(self.bytes, self.at as u64)?;
        self.skip(text.len() as u64)?;
        self.skip(1)?;
        Some(text)
    }
}

/// The text that begins at a byte, behind which a 0 stands.
pub(crate) fn text_at(bytes: &[u8], at: u64) -> Option<&[u8]> {
    if at >= bytes.len() as u64 {
        return None;
    }
    let rest = &bytes[at as usize..];
    let end = rest.iter().position(|byte| *byte == 0)?;
    Some(rest.split_at(end).0)
}
