//! What each step keeps. The functions do nothing: their contracts are the laws.
ghost use Rattle.svga_cmd.specs.declared.session.Session.{Session};
ghost use Rattle.svga_ring.specs.Conditions.{Can};
ghost use Rattle.svga_ring.specs.Core.{Core, Event, after, opening_core};
ghost use Rattle.svga_ring.specs.Sound.{IsSound, IsSoundOfWords};

/// A session opens sound, and each step of either seat keeps all that is sound.
pub fn steps_keep_all()
    ensures opening { (k : Session) → IsSound k (opening_core k) }
    ensures each { (k : Session) (event : Event) (c : Core) → IsSound k c → Can event c
        → IsSound k (after event c) }
{}

/// Each step keeps what is sound of words, cells, acts and fences with no help of what is sound of pages,
/// requests and stopping.
pub fn steps_keep_words()
    ensures opening { (k : Session) → IsSoundOfWords k (opening_core k) }
    ensures each { (k : Session) (event : Event) (c : Core) → IsSoundOfWords k c → Can event c
        → IsSoundOfWords k (after event c) }
{}
