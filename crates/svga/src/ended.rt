//! How a run of the program ended.
ghost use Rattle.std.specs.Prelude.{◌≡◌, MatchResult};

use svga_head::{Head, HeadsOf};
use svga_io::WriteFault;
use svga_link::Closed;

/// The status with which the program ends, the session that it ran, and the heads in the end.
///
/// | Status | Means |
/// |---|---|
/// | 0 | the input is whole commands, a capture of such, or a script, and all of it was done |
/// | 1 | a command of the capture has a fault, or an act of the script was refused |
/// | 2 | the words are no form of the program; the input was left alone |
/// | 3 | the input has a bad word, ends inside a command or a word, or is no capture or no script |
/// | 4 | the source's count of faults rose |
/// | 5 | the sink's count of faults rose, before the text due with another status was written whole |
/// | 6 | no memory was found, and no text was written |
/// | 7 | the input is longer than 134,217,728 bytes |
#[derive(Drop)]
pub struct EndedOf<B> {
    pub status: u8,
    /// The session of a script, once it is closed.
    pub race: Option<Closed>,
    pub heads: HeadsOf<B>,
}

/// With heads of any types, each in a box.
pub type Ended = EndedOf<Box<dyn Head + Send>>;

/// The status with which a run ends that has this one where all was written.
pub fn status_of(written: Result<(), WriteFault>, status: u8) -> u8
    ensures { MatchResult written (λ _. result ≡ status) (λ _. result ≡ 5) }
{
    match written {
        Ok(()) => status,
        Err(WriteFault) => 5,
    }
}
