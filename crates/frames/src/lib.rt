// Frame kinds: a frame is a code of 64 bits, and a kind says for which rights each code is trusted.
#![tactic(auto)]

ghost use Rattle.std.specs.Prelude.{◌≡◌, ◌↔◌, ℕ, IsTrue};
ghost use Rattle.frames.specs.Kinds.{Kind, Lawful, Widens, Covers, gap as gap_of};

pub mod levels;
pub mod rights;

// What operands need of a kind.
pub trait FrameKind {
    ghost meaning: { Kind };

    // The code that is trusted for every right.
    fn full() -> u64
        ensures { result ≡ meaning.full };

    // The code that is trusted for what both are.
    fn mix(a: u64, b: u64) -> u64
        ensures { result ≡ meaning.mix a b };

    // Whether a code is trusted for a right; no above right 63.
    fn trusted(a: u64, right: u8) -> bool
        ensures { result ≡ meaning.holds a right };

    ghost lawful: { Lawful meaning };
}

// What grants and tests need besides.
pub trait GrantKind: FrameKind {
    ghost widening: { ℕ → ℕ → ℕ };

    // The code that is trusted for what either is.
    fn widen(a: u64, b: u64) -> u64
        ensures { result ≡ widening a b };

    // The lowest right for which `b` is trusted and `a` is not.
    fn gap(a: u64, b: u64) -> Option<u8>
        ensures { result ≡ gap_of Self.FrameKind.meaning a b };

    ghost widens: { Widens Self.FrameKind.meaning widening };
}

// Whether `a` is trusted for every right that `b` is.
pub fn covers<K: GrantKind>(a: u64, b: u64) -> bool
    ensures { IsTrue result ↔ Covers K.FrameKind.meaning a b }
{
    K::gap(a, b).is_none()
}
