// The levels kind: a code is trusted for every right below it, and 64 and above for all.
ghost use Rattle.std.specs.Prelude.{max};
ghost use Rattle.frames.specs.Levels.{levels};
ghost use Rattle.frames.specs.LevelLaws.{levels_lawful, max_widens};

use crate::{FrameKind, GrantKind};

pub struct Levels;

impl FrameKind for Levels {
    ghost meaning = { levels };

    ghost lawful = { levels_lawful };

    fn full() -> u64 {
        64
    }

    fn mix(a: u64, b: u64) -> u64 {
        a.min(b)
    }

    fn trusted(a: u64, right: u8) -> bool {
        right < 64 && u64::from(right) < a
    }
}

impl GrantKind for Levels {
    ghost widening = { max };

    ghost widens = { max_widens };

    fn widen(a: u64, b: u64) -> u64 {
        a.max(b)
    }

    fn gap(a: u64, b: u64) -> Option<u8> {
        (a < b.min(64)).then(|| a as u8)
    }
}
