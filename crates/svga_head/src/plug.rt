//! Plugs, each with or without a head.
use crate::head::Head;

/// A head that is told of changes, one that was dropped at a fault and is kept, or none.
#[derive(Drop)]
pub enum PlugOf<B> {
    Plugged(B),
    DroppedFault(B),
    DroppedMemory(B),
    Empty,
}

/// A plug for a head of any type. Such a head may go to another thread, as the device may.
pub type Plug = PlugOf<Box<dyn Head + Send>>;
