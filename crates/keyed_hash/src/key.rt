//! Keys of hashes.

ghost use Rattle.std.specs.Prelude.{◌≡◌, ◌<◌, ◌+◌, ℕ, slice_index, IfOk};
ghost use Rattle.keyed_hash.specs.Key.{IsDrawnFrom};
ghost use Rattle.keyed_hash.specs.Keyed.{folded, hash_of_two, started, word_at};
ghost use Rattle.keyed_hash.specs.declared.key.TheConstants.{FIXED_COLUMNS, FIXED_ROWS};

use crate::hasher::{KeyedHasher, LOW_HALF, product, word};
use std::hash::BuildHasher;
use std::io;
use std::io::Read;

/// How many bytes a key is made of.
pub const KEY_BYTES: usize = 320;

/// What a table's hashes are made with. Equal keys make equal hashers. No result depends on a key: it
/// decides alone how long a table takes to find what it holds.
#[derive(Clone, Copy)]
pub struct HashKey {
    /// A number for each place of a row of eight.
    pub(crate) columns: [u64; 8],
    /// Two numbers for each of sixteen rows.
    pub(crate) rows: [u64; 32],
}

impl HashKey {
    /// The key where none is given: always the same, and public.
    pub fn fixed() -> HashKey
        ensures { result ≡ record { columns = FIXED_COLUMNS; rows = FIXED_ROWS } }
    {
        HashKey {
            columns: FIXED_COLUMNS,
            rows: FIXED_ROWS,
        }
    }

    /// The key of the next bytes of a source: one that nobody can foresee, where those are the system's
    /// random bytes (`RandomBytes`). The only errors are the source's, and that it ended too early.
    pub fn drawn<R: Read>(source: &mut R) -> io::Result<HashKey>
        ensures { IfOk result (IsDrawnFrom (R.remaining source.old) (R.remaining source.new)) }
    {
        let mut bytes = [0; KEY_BYTES];
        source.read_exact(&mut bytes)?;
        Ok(HashKey::of_bytes(&bytes))
    }

    /// The key of so many bytes: eight of each number, the lowest first.
    pub fn of_bytes(bytes: &[u8; KEY_BYTES]) -> HashKey
        ensures columns { (i : ℕ) → i < 8 → slice_index result.columns i ≡ word_at bytes.now i }
        ensures rows { (i : ℕ) → i < 32 → slice_index result.rows i ≡ word_at bytes.now (8 + i) }
    {
        let mut key = HashKey::fixed();
        for place in 0..8 {
            key.columns[place] = number_at(bytes, place);
        }
        for place in 0..32 {
            key.rows[place] = number_at(bytes, 8 + place);
        }
        key
    }

    /// A hash of two numbers, by the numbers of one of sixteen rows: those of rows 0 and 16 are the same. Two
    /// different pairs have one product in one row for one in 2^63 keys at most.
    #[inline(always)]
    pub fn hash_of_two(&self, row: u32, first: u64, second: u64) -> u32
        ensures { result ≡ hash_of_two self.now row first second }
    {
        let at = 2 * (row as usize % 16);
        let sum = product(self.rows[at], first, self.rows[at + 1], second);
        let low = (sum & LOW_HALF) as u64;
        let high = (sum >> 64) as u64;
        (folded(low ^ FIXED_COLUMNS[0], high ^ FIXED_COLUMNS[1]) >> 32) as u32
    }

    /// Two numbers of the key, for a hash that takes no more.
    pub fn pair(&self) -> (u64, u64)
        ensures { result ≡ (slice_index self.now.rows 30, slice_index self.now.rows 31) }
    {
        (self.rows[30], self.rows[31])
    }
}

impl BuildHasher for HashKey {
    type Hasher = KeyedHasher;

    ghost build_hasher = { started };

    #[inline(always)]
    fn build_hasher(&self) -> KeyedHasher {
        KeyedHasher::of(*self)
    }
}

/// The product of two numbers, its halves put together by exclusive or.
#[inline(always)]
fn folded(first: u64, second: u64) -> u64
    ensures { result ≡ folded first second }
{
    let product = u128::from(first) * u128::from(second);
    (product & LOW_HALF) as u64 ^ (product >> 64) as u64
}

/// The number of eight bytes from eight times a place on.
fn number_at(bytes: &[u8; KEY_BYTES], place: usize) -> u64
    requires { place < 40 }
    ensures { result ≡ word_at bytes.now place }
{
    word(&bytes[8 * place..8 * place + 8])
}

/// The first numbers of SplitMix64 (Steele, Lea and Flood 2014) from 0.
const FIXED_COLUMNS: [u64; 8] = [
    0xe220_a839_7b1d_cdaf,
    0x6e78_9e6a_a1b9_65f4,
    0x06c4_5d18_8009_454f,
    0xf88b_b8a8_724c_81ec,
    0x1b39_896a_51a8_749b,
    0x53cb_9f0c_747e_a2ea,
    0x2c82_9abe_1f45_32e1,
    0xc584_133a_c916_ab3c,
];

/// Those behind them.
const FIXED_ROWS: [u64; 32] = [
    0x3ee5_7890_41c9_8ac3,
    0xf3b8_488c_368c_b0a6,
    0x657e_ecdd_3cb1_3d09,
    0xc2d3_26e0_055b_def6,
    0x8621_a03f_e0bb_db7b,
    0x8e1f_7555_983a_a92f,
    0xb54e_0f16_00cc_4d19,
    0x84bb_3f97_971d_80ab,
    0x7d29_825c_7552_1255,
    0xc3cf_1710_2b7f_7f86,
    0x3466_e9a0_8391_4f64,
    0xd81a_8d2b_5a44_85ac,
    0xdb01_602b_100b_9ed7,
    0xa903_8a92_1825_f10d,
    0xedf5_f1d9_0dca_2f6a,
    0x5449_6ad6_7bd2_634c,
    0xdd7c_01d4_f540_7269,
    0x935e_82f1_db4c_4f7b,
    0x69b8_2ebc_9223_3300,
    0x40d2_9eb5_7de1_d510,
    0xa2f0_9dab_b45c_6316,
    0xee52_1d7a_0f4d_3872,
    0xf169_52ee_72f3_454f,
    0x377d_35de_a8e4_0225,
    0x0c7d_e806_4963_bab0,
    0x0558_2d37_111a_c529,
    0xd254_741f_599d_c6f7,
    0x6963_0f75_93d1_08c3,
    0x417e_f961_81da_a383,
    0x3c3c_41a3_b433_43a1,
    0x6e19_905d_cbe5_31df,
    0x4fa9_fa73_2485_1729,
];
