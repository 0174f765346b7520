//! Frames: streams in pieces, and the greatest body.

ghost use Rattle.std.specs.Prelude.{◌≤◌};

use message_frames::{FrameFault, Frames, frame};
use std::alloc::Global;
use std::test::Fail;

/// A body of one byte, one of none, and all but the last byte of one of two.
static ALL_BUT_ONE: [u8; 14] = [0, 0, 0, 1, 1, 0, 0, 0, 0, 0, 0, 0, 2, 0x61];

/// What is told of it: each body behind its length, and 255 before the last byte is fed.
static TOLD: [u8; 7] = [1, 1, 0, 255, 2, 0x61, 0x62];

/// The greatest number of bytes of a body.
const MOST: usize = 0x100_0000;

/// Takes bodies until none stands next, and tells each behind its length.
fn take_bodies(frames: &mut Frames, told: &mut Vec<u8>) -> Result<(), FrameFault> {
    for _ in 0..3_u8 {
        if let Some(body) = frames.next()? {
            told.push(body.len().min(254) as u8)?;
            told.extend_from_slice(&body)?;
        }
    }
    Ok(())
}

/// Feeds the last byte, and takes its body.
fn end(frames: &mut Frames, told: &mut Vec<u8>) -> Result<(), FrameFault> {
    told.push(255)?;
    frames.feed(&[0x62])?;
    take_bodies(frames, told)
}

fn told_when_cut(alloc: Global, place: usize) -> Result<Vec<u8>, FrameFault>
    requires { place ≤ 14 }
{
    let mut frames = Frames::new(alloc);
    let mut told = Vec::new(alloc);
    frames.feed(&ALL_BUT_ONE[..place])?;
    take_bodies(&mut frames, &mut told)?;
    frames.feed(&ALL_BUT_ONE[place..])?;
    take_bodies(&mut frames, &mut told)?;
    end(&mut frames, &mut told)?;
    Ok(told)
}

fn told_by_bytes(alloc: Global) -> Result<Vec<u8>, FrameFault> {
    let mut frames = Frames::new(alloc);
    let mut told = Vec::new(alloc);
    for byte in ALL_BUT_ONE {
        frames.feed(&[byte])?;
        take_bodies(&mut frames, &mut told)?;
    }
    end(&mut frames, &mut told)?;
    Ok(told)
}

#[test]
fn pieces_make_no_difference(rt: HostRuntime) -> Result<(), Fail> {
    for place in 0..15 {
        assert!(rt;
            told_when_cut(rt.alloc(), place)?.as_slice() == TOLD.as_slice(),
            "cut at {place}"
        );
    }
    assert!(rt; told_by_bytes(rt.alloc())?.as_slice() == TOLD.as_slice());
    Ok(())
}

/// The answers of four calls, with more fed before each: bodies as their numbers of bytes.
fn answers(alloc: Global, piece: &[u8]) -> Result<[Result<Option<usize>, FrameFault>; 4], Fail> {
    let mut frames = Frames::new(alloc);
    let mut told = [Ok(None); 4];
    for answer in &mut told {
        frames.feed(piece)?;
        *answer = frames.next().map(|next| next.map(|body| body.len()));
    }
    Ok(told)
}

#[test]
fn too_great_a_length_stands_next_for_ever(rt: HostRuntime) -> Result<(), Fail> {
    assert!(rt; answers(rt.alloc(), &[1, 0, 0, 1])? == [Err(FrameFault::FrameTooLong); 4]);
    assert!(rt; answers(rt.alloc(), &[1, 0, 0, 0])? == [Ok(None); 4]);
    assert!(rt; answers(rt.alloc(), &[0, 0, 0, 0])? == [Ok(Some(0)); 4]);
    Ok(())
}

/// How many bytes the frame of so many bytes has, and how many its body has when it is read.
fn framed(alloc: Global, size: usize) -> Result<(usize, Option<usize>), FrameFault> {
    let mut body = Vec::new(alloc);
    body.resize(size, 7)?;
    let text = frame(alloc, &body)?;
    let mut frames = Frames::new(alloc);
    frames.feed(&text)?;
    Ok((text.len(), frames.next()?.map(|next| next.len())))
}

#[test]
fn the_greatest_body_is_framed(rt: HostRuntime) -> Result<(), Fail> {
    assert!(rt; framed(rt.alloc(), MOST)? == (MOST + 4, Some(MOST)));
    assert!(rt; framed(rt.alloc(), MOST + 1) == Err(FrameFault::FrameTooLong));
    assert!(rt; framed(rt.alloc(), 0)? == (4, Some(0)));
    Ok(())
}

#[test]
fn refusals_have_numbers(rt: HostRuntime) {
    assert!(rt; FrameFault::FrameTooLong.number() == 21 && FrameFault::Memory.number() == 255);
}
