#![tactic(auto)]

// Tests of the controller, with answers worked out from the rules.
#[cfg(test)]
mod tests {
    use controller::controller::Controller;
    use frames::levels::Levels;
    use frames::rights::Rights;
    use oracles::broad::Broad;
    use oracles::walking::Walking;
    use package::refusal::{Fault, Refusal as Fails};
    use rules::{Answer, Call, Cause, Refusal, Trail};
    use running::assembly::Assembly;
    use std::alloc::Global;
    use std::process::Abort;
    use std::test::Fail;

    // Parties 0 and 1 with frames 3 and 2; input 0 of party 0 with value 4, input 1 of party 1 with value 0; cell 2 with
    // value 0 and frame 3; device 0 with need 1; procedure 0 of party 0: WHEN place 1 is not 0, SET cell 2 to 7; then DRIVE
    // device 0 with cell 2.
    const HALL: [u8; 74] = [
        0x81, 0x00, 0x00, 0x00, 0x00, 0x00, 0x00, 0x00, 0x03, 0x81, 0x00, 0x00, 0x00, 0x00, 0x00,
        0x00, 0x00, 0x02, 0x82, 0x00, 0x00, 0x00, 0x00, 0x04, 0x82, 0x01, 0x00, 0x00, 0x00, 0x00,
        0x83, 0x00, 0x00, 0x00, 0x00, 0x00, 0x00, 0x00, 0x00, 0x00, 0x00, 0x00, 0x03, 0x85, 0x00,
        0x00, 0x00, 0x00, 0x00, 0x00, 0x00, 0x01, 0x86, 0x00, 0x00, 0x0F, 0x0B, 0x01, 0x00, 0x06,
        0x00, 0x00, 0x01, 0x02, 0x00, 0x00, 0x00, 0x07, 0x0A, 0x00, 0x02, 0x87, 0x00, 0x88,
    ];

    // A controller of these bytes.
    fn loaded<A: Assembly>(heap: Global, bytes: &[u8]) -> Result<Controller<A>, Fail> {
        let mut controller = Controller::<A>::new(heap)?;
        controller.load(heap, bytes)?;
        Ok(controller)
    }

    // Exactly these are the answers of these calls.
    fn check_answers<A: Assembly>(
        rt: &impl Abort,
        heap: Global,
        bytes: &[u8],
        calls: &[Call],
        expected: &[Answer],
    ) -> Result<(), Fail> {
        let mut controller = loaded::<A>(heap, bytes)?;
        let answers = controller.replay(heap, calls)?;
        assert!(rt; answers.as_slice() == expected);
        Ok(())
    }

    #[test]
    fn what_a_party_without_the_right_decides_moves_nothing(rt: HostRuntime) -> Result<(), Fail> {
        let calls = [
            Call::Cycle,
            Call::Show { device: 0 },
            Call::Post {
                party: 1,
                place: 1,
                value: 1,
            },
            Call::Cycle,
            Call::Show { device: 0 },
            Call::Read { place: 2, right: 1 },
            Call::Read { place: 2, right: 0 },
        ];
        let expected = [
            Answer::Cycle((3, 1)),
            Answer::Show(Ok((0, 0))),
            Answer::Post(Ok(())),
            Answer::Cycle((4, 1)),
            Answer::Show(Ok((0, 0))),
            Answer::Read(Ok((7, 2))),
            Answer::Read(Err(Refusal::NotTrusted)),
        ];
        check_answers::<(Rights, Walking)>(&rt, rt.alloc(), &HALL, &calls, &expected)
    }

    #[test]
    fn by_levels_the_drive_is_accepted(rt: HostRuntime) -> Result<(), Fail> {
        let calls = [Call::Cycle, Call::Show { device: 0 }];
        let expected = [Answer::Cycle((3, 0)), Answer::Show(Ok((0, 1)))];
        check_answers::<(Levels, Walking)>(&rt, rt.alloc(), &HALL, &calls, &expected)?;
        check_answers::<(Levels, Broad)>(&rt, rt.alloc(), &HALL, &calls, &expected)
    }

    #[test]
    fn decided_by_an_own_input_the_device_moves(rt: HostRuntime) -> Result<(), Fail> {
        let mut bytes = HALL;
        bytes[57] = 0;
        let calls = [Call::Cycle, Call::Show { device: 0 }];
        let expected = [Answer::Cycle((4, 0)), Answer::Show(Ok((7, 1)))];
        check_answers::<(Rights, Walking)>(&rt, rt.alloc(), &bytes, &calls, &expected)
    }

    #[test]
    fn the_broad_oracle_lowers_an_input_too(rt: HostRuntime) -> Result<(), Fail> {
        let calls = [Call::Cycle, Call::Read { place: 0, right: 0 }];
        let smallest = [Answer::Cycle((3, 1)), Answer::Read(Ok((4, 3)))];
        let broad = [
            Answer::Cycle((3, 1)),
            Answer::Read(Err(Refusal::NotTrusted)),
        ];
        check_answers::<(Rights, Walking)>(&rt, rt.alloc(), &HALL, &calls, &smallest)?;
        check_answers::<(Rights, Broad)>(&rt, rt.alloc(), &HALL, &calls, &broad)
    }

    #[test]
    fn the_trail_is_the_first_refused_drive(rt: HostRuntime) -> Result<(), Fail> {
        let mut controller = loaded::<(Rights, Walking)>(rt.alloc(), &HALL)?;
        assert_eq!(rt; controller.trail(), None);
        assert_eq!(rt; controller.cycle(), (3, 1));
        let trail = Trail {
            procedure: 0,
            offset: 68,
            device: 0,
            cause: Cause::Information,
            right: 0,
        };
        assert_eq!(rt; controller.trail(), Some(trail));
        assert_eq!(rt; controller.post(1, 1, 1), Ok(()));
        assert_eq!(rt; controller.trail(), Some(trail));
        Ok(())
    }

    #[test]
    fn calls_are_refused_in_their_order(rt: HostRuntime) -> Result<(), Fail> {
        let mut controller = loaded::<(Rights, Walking)>(rt.alloc(), &HALL)?;
        assert_eq!(rt; controller.post(2, 9, 0), Err(Refusal::NoSuchParty));
        assert_eq!(rt; controller.post(0, 3, 0), Err(Refusal::NoSuchPlace));
        assert_eq!(rt; controller.post(0, 1, 0), Err(Refusal::NotItsInput));
        assert_eq!(rt; controller.post(0, 2, 0), Err(Refusal::NotItsInput));
        assert_eq!(rt; controller.read(3, 64), Err(Refusal::NoSuchPlace));
        assert_eq!(rt; controller.read(0, 64), Err(Refusal::NoSuchRight));
        assert_eq!(rt; controller.read(1, 0), Err(Refusal::NotTrusted));
        assert_eq!(rt; controller.read(1, 1), Ok((0, 2)));
        assert_eq!(rt; controller.show(1), Err(Refusal::NoSuchDevice));
        assert_eq!(rt; controller.show(0), Ok((0, 0)));
        Ok(())
    }

    #[test]
    fn a_new_controller_has_nothing(rt: HostRuntime) -> Result<(), Fail> {
        let mut controller = Controller::<(Rights, Walking)>::new(rt.alloc())?;
        assert_eq!(rt; controller.cycle(), (0, 0));
        assert_eq!(rt; controller.show(0), Err(Refusal::NoSuchDevice));
        assert_eq!(rt; controller.read(0, 0), Err(Refusal::NoSuchPlace));
        assert_eq!(rt; controller.post(0, 0, 0), Err(Refusal::NoSuchParty));
        assert_eq!(rt; controller.trail(), None);
        Ok(())
    }

    #[test]
    fn a_refused_load_leaves_all_as_it_was(rt: HostRuntime) -> Result<(), Fail> {
        let heap = rt.alloc();
        let mut controller = loaded::<(Rights, Walking)>(heap, &HALL)?;
        controller.cycle();
        let trail = controller.trail();
        let mut bytes = HALL;
        bytes[63] = 1;
        let refusal = Fails::Fault(Fault::InputAsTarget, 62);
        assert_eq!(rt; controller.load(heap, &bytes), Err(refusal));
        assert_eq!(rt; controller.trail(), trail);
        assert_eq!(rt; controller.read(2, 1), Ok((0, 2)));
        assert_eq!(rt; controller.load(heap, &[0x88]), Ok(1));
        assert_eq!(rt; controller.trail(), None);
        Ok(())
    }
}
