//! Heads and frames by chance.

use crate::heads::{BOARD, TOKEN, house};
use crate::memory::{Arrival, BINARY, CONTINUE, PING, TEXT, put};
use crate::sockets::{opened, pulled};
use rand_core::utils::NextWord;
use rand_pcg::Pcg32;
use std::alloc::{AllocError, Global};
use std::test::Fail;
use web_requests::{Visit, wanted};

fn below(chance: &mut Pcg32, most: usize) -> usize {
    chance.next_word() as usize % most.max(1)
}

/// Bytes with some of them changed, left out or said twice.
fn garbled(alloc: Global, chance: &mut Pcg32, bytes: &[u8]) -> Result<Vec<u8>, AllocError> {
    let mut all = Vec::new(alloc);
    let rare = below(chance, 200).saturating_add(2);
    for byte in bytes {
        match below(chance, rare.saturating_mul(4)) {
            0 => all.push((chance.next_word() % 256) as u8)?,
            1 => {}
            2 => {
                all.push(*byte)?;
                all.push(*byte)?;
            }
            _ => all.push(*byte)?,
        }
    }
    Ok(all)
}

fn holds(bytes: &[u8], part: &[u8]) -> bool {
    bytes
        .windows(part.len().max(1))
        .any(|window| window == part)
}

/// Who is let in said GET, the house's Host and Origin, and the token; and a head that waits goes on waiting or is
/// decided by what comes.
#[test]
fn heads_by_chance(rt: HostRuntime) -> Result<(), Fail> {
    let alloc = rt.alloc();
    let house = house(alloc)?;
    let mut chance = Pcg32::new(87, 1);
    let mut let_in: u64 = 0;
    for _head in 0..5000 {
        let bytes = garbled(alloc, &mut chance, BOARD.as_bytes())?;
        let cut = below(&mut chance, bytes.len().saturating_add(1));
        let front = bytes.get(..cut).ok_or("a front")?;
        let early = wanted(front, &house);
        let visit = wanted(&bytes, &house);
        assert!(&rt; early == Visit::Waits || early == visit);
        if let Visit::Board(request) = visit {
            let_in = let_in.saturating_add(1);
            assert!(&rt; holds(&bytes, TOKEN) && holds(&bytes, &request.key));
            assert!(&rt; holds(&bytes, b"127.0.0.1:7080") && request.head_len <= bytes.len());
        }
    }
    assert!(&rt; let_in > 500 && let_in < 4500, "{let_in}");
    Ok(())
}

/// The bodies that whole frames have, one behind another; None if a frame is cut.
fn are_frames(mut bytes: &[u8]) -> bool {
    for _frame in 0..u64::MAX {
        let Some((size, rest)) = bytes.split_first_chunk::<4>() else {
            return bytes.is_empty();
        };
        match rest.get(u32::from_be_bytes(*size) as usize..) {
            Some(behind) => bytes = behind,
            None => return false,
        }
    }
    false
}

fn frames(alloc: Global, chance: &mut Pcg32) -> Result<Vec<u8>, AllocError> {
    let kinds = [BINARY, TEXT, CONTINUE, PING, BINARY];
    let mut bytes = Vec::new(alloc);
    for _frame in 0..below(chance, 12) {
        let body = [0x61; 200];
        let size = below(chance, 200);
        let is_last = below(chance, 4) > 0;
        let kind = kinds[below(chance, kinds.len()) % kinds.len()];
        put(&mut bytes, kind, is_last, &body[..size.min(200)])?;
    }
    Ok(bytes)
}

/// Whatever comes, whole frames are pulled, and then the end.
#[test]
fn frames_by_chance(rt: HostRuntime) -> Result<(), Fail> {
    let alloc = rt.alloc();
    let mut chance = Pcg32::new(87, 2);
    let mut some: u64 = 0;
    for _socket in 0..5000 {
        let whole = frames(alloc, &mut chance)?;
        let bytes = garbled(alloc, &mut chance, &whole)?;
        let cut = below(&mut chance, bytes.len().saturating_add(1));
        let (front, behind) = bytes.split_at(cut.min(bytes.len()));
        let mut arrivals = Vec::new(alloc);
        arrivals.push(Arrival::Bytes(Vec::from_slice(alloc, front)?))?;
        arrivals.push(Arrival::Pause)?;
        arrivals.push(Arrival::Bytes(Vec::from_slice(alloc, behind)?))?;
        let (mut reader, _writer) = opened(alloc, arrivals)?;
        let room = below(&mut chance, 300).saturating_add(1);
        let _ = reader.has_come();
        let all = pulled(alloc, &mut reader, room)?;
        assert!(&rt; are_frames(&all));
        if !all.is_empty() {
            some = some.saturating_add(1);
        }
    }
    assert!(&rt; some > 500, "{some}");
    Ok(())
}
