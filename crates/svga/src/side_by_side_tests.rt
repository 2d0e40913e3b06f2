// The two ends of a race run side by side: each of two threads waits for the other.
use crate::race_tests::{DRAWING, DRAWN};
use crate::top::top;
use std::alloc::{AllocError, Global};
use std::sync::Arc;
use std::sync::atomic::{AtomicU64, Ordering};
use std::test::Fail;
use svga_head::{Head, HeadFault, HeadsOf, PlugOf};
use svga_io::{CleanSource, Failed, MemSink, Sink};

/// How often a flag is looked at before its raiser counts as not running.
const TURNS: u64 = 1 << 32;

type Flag = Arc<AtomicU64, Global>;

fn raise(flag: &Flag) {
    flag.store(1, Ordering::SeqCst);
}

// Waits until the flag is raised, and tells whether it was.
fn is_raised(flag: &Flag) -> bool {
    for _ in 0..TURNS {
        if flag.load(Ordering::SeqCst) == 1 {
            return true;
        }
    }
    false
}

/// A head that raises its flag at its first paint and waits for the sink's, and counts its calls. It tells no
/// pictures.
#[derive(Drop)]
struct Waiting {
    mine: Flag,
    other: Flag,
    met: Flag,
    calls: Arc<AtomicU64, Global>,
}

impl Waiting {
    fn count(&self) {
        self.calls.fetch_add(1, Ordering::SeqCst);
    }
}

impl Head for Waiting {
    ghost use Rattle.std.specs.Prelude.{None};

    ghost state = { λ _. record { pictures = None; faults = 0; refusals = 0 } };

    fn show(&mut self, _id: u32, _width: u32, _height: u32) -> Result<(), HeadFault> {
        self.count();
        Ok(())
    }

    fn hide(&mut self, _id: u32) -> Result<(), HeadFault> {
        self.count();
        Ok(())
    }

    fn paint(&mut self, _id: u32, _x: u32, _y: u32, _colours: &[u32]) -> Result<(), HeadFault> {
        self.count();
        if self.mine.load(Ordering::SeqCst) == 0 {
            raise(&self.mine);
            if is_raised(&self.other) {
                raise(&self.met);
            }
        }
        Ok(())
    }

    fn picture_row(&self, _id: u32, _y: u32) -> Option<&[u32]> {
        None
    }
}

/// A sink that raises its flag when it gets the line of the first fence, and waits for the head's.
#[derive(Drop)]
struct Listening {
    inner: MemSink,
    mine: Flag,
    other: Flag,
    met: bool,
}

impl Sink for Listening {
    ghost use Rattle.std.specs.Prelude.{Some};

    ghost held = { λ s. Some s.inner.held };

    ghost faults = { λ s. s.inner.faults };

    fn put(&mut self, piece: &[u8]) -> Result<usize, Failed> {
        if piece == b"fence 1\n".as_slice() {
            raise(&self.mine);
            self.met = is_raised(&self.other);
        }
        self.inner.put(piece)
    }
}

fn flag(alloc: Global) -> Result<Flag, AllocError> {
    Ok(Arc::new(alloc, AtomicU64::new(0))?)
}

#[test]
fn ends_run_side_by_side(rt: HostRuntime) -> Result<(), Fail> {
    let alloc = rt.alloc();
    let (painted, fenced, met, calls) = (flag(alloc)?, flag(alloc)?, flag(alloc)?, flag(alloc)?);
    let mut plugs = Vec::new(alloc);
    plugs.push(PlugOf::Plugged(Waiting {
        mine: Arc::try_clone(&painted)?,
        other: Arc::try_clone(&fenced)?,
        met: Arc::try_clone(&met)?,
        calls: Arc::try_clone(&calls)?,
    }))?;
    let mut sink = Listening {
        inner: MemSink::new(alloc, 4096, Vec::new(alloc))?,
        mine: fenced,
        other: painted,
        met: false,
    };
    let mut bytes = Vec::new(alloc);
    bytes.extend_from_slice(b"session 65536 300 64 64 307200 1 reserve\n")?;
    bytes.extend_from_slice(DRAWING.as_bytes())?;
    let mut source = CleanSource::new(bytes, 4096);
    let mut words = Vec::new(alloc);
    words.push(String::from_str(alloc, "race")?)?;
    let ended = top(
        &rt,
        alloc,
        &words,
        &mut source,
        &mut sink,
        HeadsOf::new(plugs),
    );
    assert_eq!(rt; ended.status, 0);
    assert_eq!(rt; sink.inner.bytes(), DRAWN.as_bytes());
    assert!(rt; sink.met);
    assert_eq!(rt; met.load(Ordering::SeqCst), 1);
    // One screen, and each of its rows once.
    assert_eq!(rt; calls.load(Ordering::SeqCst), 481);
    Ok(())
}
