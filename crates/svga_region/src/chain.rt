//! The reading of a chain, one table page after another.
ghost use Rattle.std.specs.Prelude.{◌≡◌};
ghost use Rattle.svga_region.specs.Next.{next_by};

/// What a chain that is being read asks for.
#[derive(Clone, Copy, Debug, PartialEq, Eq)]
pub enum ChainNext {
    /// The table page with this number.
    Page(u32),
    /// Nothing more: its end was read.
    Whole,
}

/// A chain that is being read: for which region, how many descriptors were read, and which table page is
/// wanted.
#[derive(Clone, Copy, Debug)]
pub struct Reading {
    pub id: u32,
    pub count: usize,
    pub wants: Option<u32>,
}

/// What is asked for.
pub fn next_of(reading: Reading) -> ChainNext
    ensures { result ≡ next_by reading.wants }
{
    match reading.wants {
        Some(page) => ChainNext::Page(page),
        None => ChainNext::Whole,
    }
}
