//! RLE texts by chance.

use crate::chance::Chance;
use std::alloc::{AllocError, Global};

/// Lines that may stand before the header.
static FRONTS: [&str; 12] = [
    "#C a comment\n",
    "#CXRLE Pos=-1,2 Gen=7\n",
    "#CXRLE Gen=18446744073709551615\n",
    "#CXRLE Pos=2147483647,-2147483648\r\n",
    "#CXRLE Pos=1,2 Pos=1,2\n",
    "#CXRLE\n",
    "#CXRLEx Gen=1\n",
    "#CXRLE Gen=-1\n",
    "#CXRLE\tGen=3  Pos=4,5 \n",
    " \t \n",
    "\r",
    "#P 1 1\n",
];

/// Headers, the last of which is none.
static HEADERS: [&str; 6] = [
    "x = 3, y = 3\n",
    "x=0,y=0\n",
    " x = 4294967295 , y = 007, rule = B3/S23\r\n",
    "x = 3, y = 3 \r",
    "x = 12, y = 1,\n",
    "x = 4294967296, y = 1\n",
];

/// Tokens and what may stand between or within them; the last eleven have a fault, or end the tokens.
static TOKENS: [&str; 32] = [
    "o",
    "b",
    "A",
    "X",
    "pA",
    "yO",
    ".",
    "$",
    "2o",
    "3b",
    "3$",
    "10A",
    "2 3 o",
    "12pX",
    "p A",
    " ",
    "\n",
    "\t",
    "\r\n",
    "\n#C o!\n",
    "5",
    "yP",
    "xX",
    "0o",
    "4294967295b",
    "4294967295$",
    "4294967296b",
    "1048577o",
    "00000000000000000000",
    "#",
    "z",
    "!",
];

/// A text of comments, a header and tokens.
pub fn pattern(alloc: Global, chance: &mut Chance) -> Result<Vec<u8>, AllocError> {
    let mut text = Vec::new(alloc);
    for _ in 0..chance.below(3) {
        text.extend_from_slice(chance.one_of(&FRONTS, "").as_bytes())?;
    }
    let headers = if chance.is_one_in(20) {
        &HEADERS[..6]
    } else {
        &HEADERS[..5]
    };
    text.extend_from_slice(chance.one_of(headers, "").as_bytes())?;
    push_tokens(&mut text, chance)?;
    Ok(text)
}

/// Tokens; in most cases none that is faulty.
fn push_tokens(text: &mut Vec<u8>, chance: &mut Chance) -> Result<(), AllocError> {
    let tokens = if chance.is_one_in(4) {
        &TOKENS[..32]
    } else {
        &TOKENS[..21]
    };
    for _ in 0..chance.below(24) {
        text.extend_from_slice(chance.one_of(tokens, "").as_bytes())?;
    }
    if chance.is_one_in(2) {
        text.push(b'!')?;
    }
    Ok(())
}
