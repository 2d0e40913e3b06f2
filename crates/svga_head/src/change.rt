//! A change of pictures, of which a head is told.

/// Each variant is a call of `Head` with its arguments, so that one loop tells all heads of any of the three.
#[derive(Clone, Copy)]
pub enum Change<'a> {
    Show {
        id: u32,
        width: u32,
        height: u32,
    },
    Hide {
        id: u32,
    },
    Paint {
        id: u32,
        x: u32,
        y: u32,
        colours: &'a [u32],
    },
}
