#![tactic(auto)]

// Tests of the write oracles.
#[cfg(test)]
mod tests {
    use oracles::WriteOracle;
    use oracles::broad::Broad;
    use oracles::walking::Walking;
    use package::load;
    use reach::places_of;
    use std::process::Abort;
    use std::test::Fail;

    // One input, place 0; six cells, places 1 to 6; one table, cells 3 to 5; one device; four procedures.
    // Procedure 0 sets cell 1. Procedure 1 calls it, and puts into the table in a loop. Procedure 2 calls procedure 1
    // in the first block of a choice, copies to cell 2 in the second, adds to cell 6 in a test under a grant, and
    // drives. Procedure 3 picks from the table to cell 2.
    const HALL: &[u8] = b"\x81\0\0\0\0\0\0\0\x03\
        \x82\0\0\0\0\0\
        \x83\0\0\0\0\0\0\0\0\0\0\0\x03\
        \x83\0\0\0\0\0\0\0\0\0\0\0\x03\
        \x83\0\0\0\0\0\0\0\0\0\0\0\x03\
        \x83\0\0\0\0\0\0\0\0\0\0\0\x03\
        \x83\0\0\0\0\0\0\0\0\0\0\0\x03\
        \x83\0\0\0\0\0\0\0\0\0\0\0\x03\
        \x84\x03\x03\
        \x85\0\0\0\0\0\0\0\x01\
        \x86\0\0\x06\x01\x01\0\0\0\x07\
        \x86\0\0\x0B\x0E\0\x0C\0\x02\0\x04\x09\0\x01\x02\
        \x86\0\0\x2B\x0B\0\0\x02\0\x03\x0E\x01\x02\x02\x01\
        \x0D\0\0\0\0\0\0\0\x01\0\x12\
        \x0F\0\0\0\0\0\0\0\x01\0\0\x04\0\0\x03\x06\x01\x02\
        \x0A\0\x01\
        \x86\0\0\x04\x08\x02\0\x01\
        \x87\x02\x88";

    // What each block may write; there is no block 10.
    const WRITTEN: [&[u8]; 11] = [
        &[1],
        &[1, 3, 4, 5],
        &[3, 4, 5],
        &[1, 2, 3, 4, 5, 6],
        &[1, 3, 4, 5],
        &[2],
        &[6],
        &[6],
        &[],
        &[2],
        &[],
    ];

    // One party and nothing else: no block and no place.
    const BARE: &[u8] = b"\x81\0\0\0\0\0\0\0\x03\x88";

    // Exactly these places are named for the block.
    fn check_named<O: WriteOracle>(rt: &impl Abort, oracle: &O, block: usize, places: &[u8]) {
        for place in 0..=u8::MAX {
            assert!(rt; oracle.names(block, place) == places.contains(&place));
        }
    }

    // Blocks that no package has.
    fn check_lacking<O: WriteOracle>(rt: &impl Abort, oracle: &O) {
        check_named(rt, oracle, 9999, &[]);
        check_named(rt, oracle, usize::MAX, &[]);
    }

    #[test]
    fn the_walking_oracle_names_what_may_be_written(rt: HostRuntime) -> Result<(), Fail> {
        let heap = rt.alloc();
        let held = load(heap, HALL)?;
        let walking = Walking::prepare(heap, &held)?;
        for (block, places) in WRITTEN.iter().enumerate() {
            check_named(&rt, &walking, block, places);
        }
        check_lacking(&rt, &walking);
        Ok(())
    }

    #[test]
    fn the_places_of_a_block_are_listed_in_order(rt: HostRuntime) -> Result<(), Fail> {
        let heap = rt.alloc();
        let held = load(heap, HALL)?;
        let walking = Walking::prepare(heap, &held)?;
        for (block, places) in WRITTEN.iter().enumerate() {
            assert_eq!(rt; places_of(heap, &walking, block)?.as_slice(), *places);
        }
        Ok(())
    }

    #[test]
    fn the_broad_oracle_names_every_place(rt: HostRuntime) -> Result<(), Fail> {
        let heap = rt.alloc();
        let held = load(heap, HALL)?;
        let broad = Broad::prepare(heap, &held)?;
        for block in 0..10usize {
            check_named(&rt, &broad, block, &[0, 1, 2, 3, 4, 5, 6]);
        }
        check_named(&rt, &broad, 10, &[]);
        check_lacking(&rt, &broad);
        Ok(())
    }

    #[test]
    fn nothing_is_named_where_nothing_is_declared(rt: HostRuntime) -> Result<(), Fail> {
        let heap = rt.alloc();
        let held = load(heap, BARE)?;
        let walking = Walking::prepare(heap, &held)?;
        let broad = Broad::prepare(heap, &held)?;
        check_named(&rt, &walking, 0, &[]);
        check_lacking(&rt, &walking);
        check_named(&rt, &broad, 0, &[]);
        check_lacking(&rt, &broad);
        Ok(())
    }

    // The walking oracle keeps a copy of its own.
    #[test]
    fn the_walking_oracle_outlives_the_package(rt: HostRuntime) -> Result<(), Fail> {
        let heap = rt.alloc();
        let held = load(heap, HALL)?;
        let walking = Walking::prepare(heap, &held)?;
        drop(held);
        check_named(&rt, &walking, 4, &[1, 3, 4, 5]);
        Ok(())
    }
}
