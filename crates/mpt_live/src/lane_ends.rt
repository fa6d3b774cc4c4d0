//! The ends of the lanes that a party with many lanes had.
use crate::giving::Giving;
use crate::taking::Taking;
use mpt_trace::{Ask, Back, Down, Out, Tell, Up};

/// The host's ends of the lanes: a lane up for each reply queue, and a lane ask and a lane tell for each submitter, by
/// number.
#[derive(Drop)]
pub struct HostLaneEnds<'a> {
    /// The lane down.
    pub down: Giving<'a, Down>,
    /// The lanes up.
    pub ups: Vec<Taking<'a, Up>>,
    /// The lanes ask.
    pub asks: Vec<Taking<'a, Ask>>,
    /// The lanes tell.
    pub tells: Vec<Giving<'a, Tell>>,
}

/// The controller's ends of the lanes: a lane up for each reply queue, by number.
#[derive(Drop)]
pub struct IocLaneEnds<'a> {
    /// The lane down.
    pub down: Taking<'a, Down>,
    /// The lanes up.
    pub ups: Vec<Giving<'a, Up>>,
    /// The lane out.
    pub out: Giving<'a, Out>,
    /// The lane back.
    pub back: Taking<'a, Back>,
}
