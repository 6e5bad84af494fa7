// What a frame lets its holder do, and what a block may write, as lists.
#![tactic(auto)]

ghost use Rattle.std.specs.Prelude.{◌≡◌, IfOk, filter};
ghost use Rattle.std.specs.List.{range_with_len};

use frames::FrameKind;
use oracles::WriteOracle;
use std::alloc::{AllocError, Global};

pub mod kinds;

// The rights for which a code is trusted, in their order. There are 64 rights.
pub fn rights_of<K: FrameKind>(heap: Global, code: u64) -> Result<Vec<u8>, AllocError>
    ensures { IfOk result (λ v.
        v.items ≡ filter (K.FrameKind.meaning.holds code) (range_with_len 0 64)) }
{
    (0..64u8)
        .filter(|right| K::trusted(code, *right))
        .collect(heap)
}

// The places that an oracle names for a block, in their order. No package has more than 128 places.
pub fn places_of<O: WriteOracle>(
    heap: Global,
    oracle: &O,
    block: usize,
) -> Result<Vec<u8>, AllocError>
    ensures { IfOk result (λ v.
        v.items ≡ filter (O.WriteOracle.answers oracle.now block) (range_with_len 0 128)) }
{
    (0..128u8)
        .filter(|place| oracle.names(block, *place))
        .collect(heap)
}

#[cfg(test)]
mod tests {
    use super::*;
    use frames::levels::Levels;
    use frames::rights::Rights;
    use std::test::Fail;

    #[test]
    fn the_rights_of_a_code_are_listed_in_order(rt: HostRuntime) -> Result<(), Fail> {
        let heap = rt.alloc();
        assert_eq!(rt;
            rights_of::<Rights>(heap, 200)?.as_slice(),
            [3, 6, 7].as_slice()
        );
        assert_eq!(rt;
            rights_of::<Levels>(heap, 3)?.as_slice(),
            [0, 1, 2].as_slice()
        );
        assert_eq!(rt; rights_of::<Levels>(heap, 200)?.len(), 64);
        Ok(())
    }
}
