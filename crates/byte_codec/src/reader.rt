//! A reader of bytes.

ghost use Rattle.std.specs.Prelude.{◌≡◌, length};

use std::marker::Model;

/// The bytes that are not read yet. Each call takes bytes from the front; one that answers a fault
/// takes none. The faults are the caller's: each call is handed the one that it may answer.
#[derive(Drop)]
pub struct Reader<'a> {
    rest: &'a [u8],
}

impl<'a> Model for Reader<'a> {
    ghost use Rattle.std.specs.Prelude.{ℕ, List};
    ghost use Rattle.byte_codec.specs.Codec.{AreBytes};

    ghost Value = { List ℕ };

    ghost view = { λ r. r.rest.now };

    ghost invariant = { λ r. AreBytes r.rest.now };
}

impl<'a> Reader<'a> {
    ghost use Rattle.std.specs.Prelude.{OnErr};
    ghost use Rattle.std.specs.Int.{w8, w16, w32, w64};
    ghost use Rattle.byte_codec.specs.Codec.{AreBytes};
    ghost use Rattle.byte_codec.specs.Reading.{bytes_at, ended, leaving, number_at};

    pub fn new(bytes: &'a [u8]) -> Reader<'a>
        ensures { result ≡ bytes.now }
    {
        Reader { rest: bytes }
    }

    /// How many bytes are left.
    pub fn len(&self) -> usize
        ensures value { result ≡ length self.now }
        ensures bytes { AreBytes self.now }
    {
        self.rest.len()
    }

    /// The next `count` bytes, or `short` where fewer are left.
    pub fn read_bytes<F: Copy>(&mut self, count: usize, short: F) -> Result<&'a [u8], F>
        ensures exact { leaving (λ bytes. bytes.now) result self.new ≡ bytes_at short count self.old }
        ensures err { OnErr result (self.new ≡ self.old) }
    {
        if self.rest.len() < count {
            return Err(short);
        }
        let (front, rest) = self.rest.split_at(count);
        self.rest = rest;
        Ok(front)
    }

    /// The next byte, or `short`.
    pub fn read_u8<F: Copy>(&mut self, short: F) -> Result<u8, F>
        ensures exact { leaving (λ n. n) result self.new ≡ number_at short w8 self.old }
        ensures err { OnErr result (self.new ≡ self.old) }
    {
        let bytes = self.read_bytes(1, short)?;
        Ok(bytes[0])
    }

    /// The next number of two bytes, the greatest first, or `short`.
    pub fn read_u16<F: Copy>(&mut self, short: F) -> Result<u16, F>
        ensures exact { leaving (λ n. n) result self.new ≡ number_at short w16 self.old }
        ensures err { OnErr result (self.new ≡ self.old) }
    {
        let bytes = self.read_bytes(2, short)?;
        Ok(u16::from_be_bytes([bytes[0], bytes[1]]))
    }

    /// The next number of four bytes, the greatest first, or `short`.
    pub fn read_u32<F: Copy>(&mut self, short: F) -> Result<u32, F>
        ensures exact { leaving (λ n. n) result self.new ≡ number_at short w32 self.old }
        ensures err { OnErr result (self.new ≡ self.old) }
    {
        let bytes = self.read_bytes(4, short)?;
        Ok(u32::from_be_bytes([bytes[0], bytes[1], bytes[2], bytes[3]]))
    }

    /// The next number of eight bytes, the greatest first, or `short`.
    pub fn read_u64<F: Copy>(&mut self, short: F) -> Result<u64, F>
        ensures exact { leaving (λ n. n) result self.new ≡ number_at short w64 self.old }
        ensures err { OnErr result (self.new ≡ self.old) }
    {
        let bytes = self.read_bytes(8, short)?;
        Ok(u64::from_be_bytes([
            bytes[0], bytes[1], bytes[2], bytes[3], bytes[4], bytes[5], bytes[6], bytes[7],
        ]))
    }

    /// Nothing is left, or `trailing`.
    pub fn finish<F: Copy>(self, trailing: F) -> Result<(), F>
        ensures { result ≡ ended trailing tt self.entry }
    {
        if !self.rest.is_empty() {
            return Err(trailing);
        }
        Ok(())
    }
}
