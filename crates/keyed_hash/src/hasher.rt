//! Hashers with a key.

ghost use Rattle.std.specs.Prelude.{◌≡◌, ◌≤◌};
ghost use Rattle.keyed_hash.specs.Keyed.{finished, product, started, taken, with_row, with_second, word_of, written};

use crate::key::HashKey;
use std::hash::{FoldHasher, Hasher};

/// The bits of the low half of 128.
pub(crate) const LOW_HALF: u128 = 0xffff_ffff_ffff_ffff;

/// Takes a key of a table number by number, in rows of eight. Of each row a sum of products with the key's
/// columns is made (NH, two numbers a product), and of the two halves of these sums one with the key's rows.
/// So two different keys of up to 128 numbers each, as many in one as in the other, have one sum for one in
/// 2^63 keys of hashes at most.
///
/// Each write is one number: that of its bytes, the lowest first, modulo 2^64. So keys are to be made of
/// numbers of at most 64 bits.
#[derive(Clone, Copy)]
pub struct KeyedHasher {
    pub(crate) key: HashKey,
    /// How many rows there are.
    pub(crate) row: usize,
    /// How many numbers there are behind them, 0 to 7.
    pub(crate) column: usize,
    /// The last of these, where it waits for the next one.
    pub(crate) first: u64,
    /// What the others of these come to.
    pub(crate) sum: u128,
    /// What the rows come to.
    pub(crate) total: u128,
}

impl KeyedHasher {
    /// One that took nothing.
    #[inline(always)]
    pub(crate) fn of(key: HashKey) -> KeyedHasher
        ensures { result ≡ started key }
    {
        KeyedHasher {
            key,
            row: 0,
            column: 0,
            first: 0,
            sum: 0,
            total: 0,
        }
    }

    /// Takes one number more.
    #[inline(always)]
    fn take(&mut self, number: u64)
        ensures { self.new ≡ taken self.old number }
    {
        let column = self.column % 8;
        if column % 2 == 0 {
            self.first = number;
            self.column = column + 1;
            return;
        }
        let sum = self.with_second(column, number);
        if column < 7 {
            self.sum = sum;
            self.column = column + 1;
            return;
        }
        self.total = self.with_row(sum);
        self.row = self.row.wrapping_add(1);
        self.column = 0;
        self.sum = 0;
    }

    /// What the numbers of the row come to with one more, in a column that is odd.
    #[inline(always)]
    fn with_second(&self, column: usize, number: u64) -> u128
        requires { (1 ≤ column) × (column ≤ 7) }
        ensures { result ≡ with_second self.now column number }
    {
        let columns = &self.key.columns;
        let more = product(columns[column - 1], self.first, columns[column], number);
        self.sum.wrapping_add(more)
    }

    /// What the rows come to with one more, by what that comes to.
    #[inline(always)]
    fn with_row(&self, sum: u128) -> u128
        ensures { result ≡ with_row self.now sum }
    {
        let rows = &self.key.rows;
        let at = 2 * (self.row % 16);
        let low = (sum & LOW_HALF) as u64;
        let high = (sum >> 64) as u64;
        self.total
            .wrapping_add(product(rows[at], low, rows[at + 1], high))
    }
}

impl Hasher for KeyedHasher {
    ghost write = { written };

    ghost finish = { finished };

    /// The sum's low bits are not spread, so that it goes through a hasher without a key.
    #[inline(always)]
    fn finish(&self) -> u64 {
        let column = self.column % 8;
        let sum = if column % 2 == 1 {
            self.with_second(column, 0)
        } else {
            self.sum
        };
        let mut spread = FoldHasher::default();
        spread.write_u128(self.with_row(sum));
        spread.finish()
    }

    #[inline(always)]
    fn write(&mut self, bytes: &[u8]) {
        self.take(word(bytes));
    }

    #[inline(always)]
    fn write_u32(&mut self, i: u32) {
        self.take(u64::from(i));
    }

    #[inline(always)]
    fn write_u64(&mut self, i: u64) {
        self.take(i);
    }

    #[inline(always)]
    fn write_usize(&mut self, i: usize) {
        self.take(i as u64);
    }
}

/// The product of two numbers, to each of which its part of the key is added modulo 2^64.
#[inline(always)]
pub(crate) fn product(first_key: u64, first: u64, second_key: u64, second: u64) -> u128
    ensures { result ≡ product first_key first second_key second }
{
    let first = first.wrapping_add(first_key);
    let second = second.wrapping_add(second_key);
    u128::from(first) * u128::from(second)
}

/// The number of some bytes, the lowest first, modulo 2^64.
pub(crate) fn word(bytes: &[u8]) -> u64
    ensures { result ≡ word_of bytes.now }
{
    let mut word = 0u64;
    for place in (0..bytes.len()).rev() {
        word = word.wrapping_mul(256).wrapping_add(u64::from(bytes[place]));
    }
    word
}
