//! Fields of bytes, read from the front.

use delta_exchange::ReadFault;

/// Bytes that are not read yet.
#[derive(Drop)]
pub struct Fields<'a> {
    rest: &'a [u8],
}

impl<'a> Fields<'a> {
    pub fn of(bytes: &'a [u8]) -> Fields<'a> {
        Fields { rest: bytes }
    }

    /// So many bytes, or `Short` where there are fewer.
    pub fn take(&mut self, count: usize) -> Result<&'a [u8], ReadFault> {
        match self.rest.split_at_checked(count) {
            Some((front, behind)) => {
                self.rest = behind;
                Ok(front)
            }
            None => Err(ReadFault::Short),
        }
    }

    pub fn byte(&mut self) -> Result<u8, ReadFault> {
        match self.take(1)? {
            [byte] => Ok(*byte),
            _ => Err(ReadFault::Short),
        }
    }

    /// A number of four bytes.
    pub fn word(&mut self) -> Result<u32, ReadFault> {
        match self.take(4)? {
            [a, b, c, d] => Ok(u32::from_be_bytes([*a, *b, *c, *d])),
            _ => Err(ReadFault::Short),
        }
    }

    /// A number of eight bytes.
    pub fn long(&mut self) -> Result<u64, ReadFault> {
        match self.take(8)? {
            [a, b, c, d, e, f, g, h] => { Ok(u64::from_be_bytes([*a, *b, *c, *d, *e, *f, *g, *h])) }
            _ => Err(ReadFault::Short),
        }
    }

    pub fn is_empty(&self) -> bool {
        self.rest.is_empty()
    }
}
