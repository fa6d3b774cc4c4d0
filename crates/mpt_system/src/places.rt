//! Where each identifier and each reply frame is.
ghost use Rattle.std.specs.Prelude.{◌≡◌, ◌≤◌, ◌<◌, IfOk, map};
ghost use Rattle.std.specs.List.{list_any, range_with_len};
ghost use Rattle.mpt_rules.specs.World.Places.{frame_place, is_posted_as, is_return_of, smid_place};
ghost use Rattle.mpt_system.specs.Parties.{world_of};
ghost use Rattle.mpt_system.specs.Places.{frame_place_of, place_away, smid_place_of};

use crate::parties::Parties;
use crate::place::{FramePlace, SmidPlace};
use crate::system::System;
use host_core::HostSmid;
use host_tables::frame_address;
use ioc_core::IocPlace;
use mpt_rules::OutOfMemory;
use mpt_trace::{Down, Smid};
use std::collections::VecDeque;
use std::marker::Model;

/// How many identifiers there are.
const SMIDS: Smid = 280;

/// How many reply frames there are.
const REPLY_FRAMES: u8 = 64;

/// The place of each identifier from 1 to 280, and of each reply frame from 0 to 63. A contract sees the
/// two lists.
#[derive(Drop)]
pub struct Places {
    smids: Vec<SmidPlace>,
    frames: Vec<FramePlace>,
}

impl Model for Places {
    ghost use Rattle.mpt_system.specs.Places.{PlacesSeen};

    ghost Value = { PlacesSeen };

    ghost view = { λ p. record { smids = p.smids.items; frames = p.frames.items } };
}

impl Places {
    /// The places of the identifiers, from 1 on.
    pub fn smids(&self) -> &[SmidPlace]
        ensures { result.now ≡ self.now.smids }
    {
        &self.smids
    }

    /// The places of the reply frames, from 0 on.
    pub fn frames(&self) -> &[FramePlace]
        ensures { result.now ≡ self.now.frames }
    {
        &self.frames
    }
}

impl System {
    /// The place of each identifier and of each reply frame; or OutOfMemory.
    pub fn places(&self) -> Result<Places, OutOfMemory>
        ensures smids { IfOk result (λ places. map smid_place_of places.smids ≡ map (smid_place self.now.world) (range_with_len 1 280)) }
        ensures frames { IfOk result (λ places. map frame_place_of places.frames ≡ map (frame_place self.now.world) (range_with_len 0 64)) }
    {
        let smids = self.parties.smid_places()?;
        let frames = self.parties.frame_places()?;
        Ok(Places { smids, frames })
    }
}

impl Parties {
    // The place of each identifier.
    fn smid_places(&self) -> Result<Vec<SmidPlace>, OutOfMemory>
        ensures { IfOk result (λ places. map smid_place_of places.items ≡ map (smid_place (world_of self.now)) (range_with_len 1 280)) }
    {
        let mut places = Vec::new(self.alloc);
        for index in 0..SMIDS {
            places.push(self.smid_place(index + 1))?;
        }
        Ok(places)
    }

    // The place of each reply frame.
    fn frame_places(&self) -> Result<Vec<FramePlace>, OutOfMemory>
        ensures { IfOk result (λ places. map frame_place_of places.items ≡ map (frame_place (world_of self.now)) (range_with_len 0 64)) }
    {
        let mut places = Vec::new(self.alloc);
        for frame in 0..REPLY_FRAMES {
            places.push(self.frame_place(frame))?;
        }
        Ok(places)
    }

    // The place of an identifier.
    fn smid_place(&self, smid: Smid) -> SmidPlace
        ensures { smid_place_of result ≡ smid_place (world_of self.now) smid }
    {
        match self.host.smid_at(smid) {
            HostSmid::Free => SmidPlace::Free,
            HostSmid::Parked => SmidPlace::Parked,
            HostSmid::Out => SmidPlace::HostOut,
            HostSmid::Away => self.place_away(smid),
        }
    }

    // The place of an identifier whose post left the host.
    fn place_away(&self, smid: Smid) -> SmidPlace
        ensures { smid_place_of result ≡ place_away (world_of self.now) smid }
    {
        if has_post(&self.down, smid) {
            return SmidPlace::DownLane;
        }
        match self.ioc.smid_at(smid) {
            Some(IocPlace::HighQueue) => SmidPlace::HighQueue,
            Some(IocPlace::NormalQueue) => SmidPlace::NormalQueue,
            Some(IocPlace::Fabric) => SmidPlace::Fabric,
            Some(IocPlace::UpOut) => SmidPlace::UpOut,
            None if self.up.has_answer(smid) => SmidPlace::UpLane,
            None => SmidPlace::Void,
        }
    }

    // The place of a reply frame.
    fn frame_place(&self, frame: u8) -> FramePlace
        requires { frame < 64 }
        ensures { frame_place_of result ≡ frame_place (world_of self.now) frame }
    {
        if self.host.holds_frame(frame) {
            FramePlace::Host
        } else if self.host.returns_frame(frame) {
            FramePlace::HostOut
        } else if has_return(&self.down, frame) {
            FramePlace::DownLane
        } else if self.ioc.frame_here(frame) {
            FramePlace::Ring
        } else if self.up.has_frame(frame) {
            FramePlace::UpLane
        } else {
            FramePlace::Void
        }
    }
}

// Whether a post under this identifier is on the lane down.
fn has_post(down: &VecDeque<Down>, smid: Smid) -> bool
    ensures { result ≡ list_any (is_posted_as smid) down.now.items }
{
    down.iter().any(|item| is_posted_as(item, smid))
}

// Whether an item posts a request under this identifier.
fn is_posted_as(item: &Down, smid: Smid) -> bool
    ensures { result ≡ is_posted_as smid item.now }
{
    match item {
        Down::Post { descriptor, .. } => *descriptor / 0x1_0000 % 0x1_0000 == u64::from(smid),
        _ => false,
    }
}

// Whether a return of this reply frame is on the lane down.
fn has_return(down: &VecDeque<Down>, frame: u8) -> bool
    requires { frame < 64 }
    ensures { result ≡ list_any (is_return_of frame) down.now.items }
{
    down.iter().any(|item| is_return_of(item, frame))
}

// Whether an item returns this reply frame.
fn is_return_of(item: &Down, frame: u8) -> bool
    requires { frame < 64 }
    ensures { result ≡ is_return_of frame item.now }
{
    match item {
        Down::Return { address, .. } => *address == frame_address(u32::from(frame)),
        _ => false,
    }
}
