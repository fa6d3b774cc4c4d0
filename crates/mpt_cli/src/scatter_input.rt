//! The bytes of a scatter list, as an input has them.
ghost use Rattle.std.specs.Prelude.{◌≡◌, ◌≤◌, ◌*◌, IfOk, length, take};
ghost use Rattle.mpt_cli.specs.ScatterInput.{chained_in, frame_at, frames_begun, frames_in, whole_size};

use byteorder::{ByteOrder, LittleEndian};
use mpt_sgl::{ChainFrame, Chained, Frames};
use mpt_text::OutOfMemory;
use std::alloc::Global;

/// ChainOffset and the first area, which come before the frames.
const FRONT_BYTES: usize = 33;

/// A frame with its address in front.
const FRAME_BYTES: usize = 136;

/// How long the bytes are once the first area and each frame that begins in them are whole.
pub fn whole_size(bytes: &[u8]) -> usize
    ensures { result ≡ whole_size (length bytes.now) }
{
    FRONT_BYTES + FRAME_BYTES * frames_begun(bytes)
}

/// What the bytes have: the offset, the first area and the frames.
///
/// # Errors
/// Only where memory is wanting.
pub fn chained_in(alloc: Global, bytes: &[u8]) -> Result<Chained, OutOfMemory>
    requires { whole_size (length bytes.now) ≤ length bytes.now }
    ensures { IfOk result (λ chained. chained ≡ chained_in bytes.now) }
{
    let frames = frames_in(alloc, &bytes[FRONT_BYTES..], frames_begun(bytes))?;
    Ok(Chained {
        offset: bytes[0],
        first: first_area(&bytes[1..]),
        frames: Frames::new(frames),
    })
}

// How many frames begin in the bytes.
fn frames_begun(bytes: &[u8]) -> usize
    ensures { result ≡ frames_begun (length bytes.now) }
{
    bytes
        .len()
        .saturating_sub(FRONT_BYTES)
        .div_ceil(FRAME_BYTES)
}

// So many frames from the front of the bytes on.
fn frames_in(alloc: Global, bytes: &[u8], count: usize) -> Result<Vec<ChainFrame>, OutOfMemory>
    requires { 136 * count ≤ length bytes.now }
    ensures { IfOk result (λ frames. frames.items ≡ frames_in count bytes.now) }
{
    let mut frames = Vec::new(alloc);
    for i in 0..count {
        frames.push(frame_at(&bytes[FRAME_BYTES * i..]))?;
    }
    Ok(frames)
}

// The frame at the front of the bytes.
fn frame_at(bytes: &[u8]) -> ChainFrame
    requires { 136 ≤ length bytes.now }
    ensures { result ≡ frame_at bytes.now }
{
    let mut frame = ChainFrame {
        address: LittleEndian::read_u64(bytes),
        bytes: [0; 128],
    };
    frame.bytes.copy_from_slice(&bytes[8..FRAME_BYTES]);
    frame
}

// The bytes of the first area, from the front of these.
fn first_area(bytes: &[u8]) -> [u8; 32]
    requires { 32 ≤ length bytes.now }
    ensures { result ≡ take 32 bytes.now }
{
    let mut area = [0; 32];
    area.copy_from_slice(&bytes[..32]);
    area
}
