// The rights kind: the bits of a code are the rights that it is trusted for.
ghost use Rattle.std.specs.Prelude.{bit_or};
ghost use Rattle.frames.specs.Rights.{rights};
ghost use Rattle.frames.specs.RightLaws.{rights_lawful, or_widens};

use crate::{FrameKind, GrantKind};

pub struct Rights;

impl FrameKind for Rights {
    ghost meaning = { rights };

    ghost lawful = { rights_lawful };

    fn full() -> u64 {
        u64::MAX
    }

    fn mix(a: u64, b: u64) -> u64 {
        a & b
    }

    fn trusted(a: u64, right: u8) -> bool {
        right < 64 && (a >> right) & 1 == 1
    }
}

impl GrantKind for Rights {
    ghost widening = { bit_or };

    ghost widens = { or_widens };

    fn widen(a: u64, b: u64) -> u64 {
        a | b
    }

    fn gap(a: u64, b: u64) -> Option<u8> {
        let missing = b & !a;
        (missing != 0).then(|| missing.trailing_zeros() as u8)
    }
}
