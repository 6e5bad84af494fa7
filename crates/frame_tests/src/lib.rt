#![tactic(auto)]

// Tests of both frame kinds at their edges.
#[cfg(test)]
mod tests {
    use frames::levels::Levels;
    use frames::rights::Rights;
    use frames::{FrameKind, GrantKind, covers};

    const ALL: u64 = 0xFFFF_FFFF_FFFF_FFFF;

    #[test]
    fn bits_are_rights(rt: HostRuntime) {
        assert!(rt; !Rights::trusted(0, 0));
        assert!(rt; Rights::trusted(63, 5));
        assert!(rt; !Rights::trusted(63, 6));
        assert!(rt; !Rights::trusted(64, 0));
        assert!(rt; Rights::trusted(64, 6));
        assert!(rt; Rights::trusted(65, 0));
        assert!(rt; Rights::trusted(200, 3));
        assert!(rt; !Rights::trusted(200, 4));
        assert!(rt; Rights::trusted(ALL, 63));
        assert!(rt; !Rights::trusted(ALL, 64));
        assert!(rt; !Rights::trusted(ALL, 255));
    }

    #[test]
    fn rights_mix_and_widen(rt: HostRuntime) {
        assert_eq!(rt; Rights::full(), ALL);
        assert_eq!(rt; Rights::mix(3, 2), 2);
        assert_eq!(rt; Rights::mix(63, 64), 0);
        assert_eq!(rt; Rights::mix(ALL, 200), 200);
        assert_eq!(rt; Rights::widen(63, 64), 127);
        assert_eq!(rt; Rights::widen(0, 0), 0);
        assert_eq!(rt; Rights::widen(65, 200), 201);
    }

    #[test]
    fn a_gap_of_rights_is_the_lowest_missing_bit(rt: HostRuntime) {
        assert_eq!(rt; Rights::gap(2, 3), Some(0));
        assert_eq!(rt; Rights::gap(3, 2), None);
        assert_eq!(rt; Rights::gap(0, 0), None);
        assert_eq!(rt; Rights::gap(64, 200), Some(3));
        assert_eq!(rt; Rights::gap(63, ALL), Some(6));
        assert_eq!(rt; Rights::gap(0x7FFF_FFFF_FFFF_FFFF, ALL), Some(63));
        assert_eq!(rt; Rights::gap(ALL, ALL), None);
    }

    #[test]
    fn a_level_holds_the_rights_below_it(rt: HostRuntime) {
        assert!(rt; !Levels::trusted(0, 0));
        assert!(rt; Levels::trusted(63, 62));
        assert!(rt; !Levels::trusted(63, 63));
        assert!(rt; Levels::trusted(64, 63));
        assert!(rt; !Levels::trusted(64, 64));
        assert!(rt; Levels::trusted(65, 63));
        assert!(rt; !Levels::trusted(65, 64));
        assert!(rt; Levels::trusted(200, 63));
        assert!(rt; !Levels::trusted(200, 64));
        assert!(rt; !Levels::trusted(ALL, 255));
    }

    #[test]
    fn levels_mix_and_widen(rt: HostRuntime) {
        assert_eq!(rt; Levels::full(), 64);
        assert_eq!(rt; Levels::mix(2, 3), 2);
        assert_eq!(rt; Levels::mix(64, 200), 64);
        assert_eq!(rt; Levels::mix(ALL, 65), 65);
        assert_eq!(rt; Levels::widen(64, 200), 200);
        assert_eq!(rt; Levels::widen(0, 63), 63);
    }

    #[test]
    fn a_gap_of_levels_starts_at_the_lower_one(rt: HostRuntime) {
        assert_eq!(rt; Levels::gap(2, 3), Some(2));
        assert_eq!(rt; Levels::gap(3, 2), None);
        assert_eq!(rt; Levels::gap(0, ALL), Some(0));
        assert_eq!(rt; Levels::gap(63, 64), Some(63));
        assert_eq!(rt; Levels::gap(63, 200), Some(63));
        assert_eq!(rt; Levels::gap(64, 200), None);
        assert_eq!(rt; Levels::gap(65, 200), None);
        assert_eq!(rt; Levels::gap(200, 64), None);
    }

    #[test]
    fn a_code_covers_another_where_there_is_no_gap(rt: HostRuntime) {
        assert!(rt; covers::<Rights>(3, 2));
        assert!(rt; !covers::<Rights>(2, 3));
        assert!(rt; !covers::<Rights>(64, 200));
        assert!(rt; covers::<Levels>(64, 200));
        assert!(rt; !covers::<Levels>(63, 64));
    }
}
