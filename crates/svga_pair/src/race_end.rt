//! What a race leaves.
use crate::raced::Raced;
use svga_head::HeadsOf;
use svga_link::Closed;

/// What a race leaves.
#[derive(Drop)]
pub struct RaceEnd<B> {
    pub raced: Raced,
    pub closed: Closed,
    pub heads: HeadsOf<B>,
}

/// There was no memory for a race. These are the heads that it was to have.
#[derive(Drop)]
pub struct NoRace<B> {
    pub heads: HeadsOf<B>,
}
