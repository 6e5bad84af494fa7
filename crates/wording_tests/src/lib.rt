#![tactic(auto)]

// Tests of the text of listings and refusals.
#[cfg(test)]
mod tests {
    use listing::listing;
    use listing::refusals::cause;
    use listing::steps::{Step, steps};
    use package::load;
    use std::alloc::Global;
    use std::fmt::Display;
    use std::process::Abort;
    use std::test::Fail;
    use wording::excerpts::Excerpt;
    use wording::reach::{HeldText, Holder};

    // Two parties and one rule.
    const SMALL: [u8; 74] = [
        0x81, 0x00, 0x00, 0x00, 0x00, 0x00, 0x00, 0x00, 0x03, 0x81, 0x00, 0x00, 0x00, 0x00, 0x00,
        0x00, 0x00, 0x02, 0x82, 0x00, 0x00, 0x00, 0x00, 0x04, 0x82, 0x01, 0x00, 0x00, 0x00, 0x00,
        0x83, 0x00, 0x00, 0x00, 0x00, 0x00, 0x00, 0x00, 0x00, 0x00, 0x00, 0x00, 0x03, 0x85, 0x00,
        0x00, 0x00, 0x00, 0x00, 0x00, 0x00, 0x01, 0x86, 0x00, 0x00, 0x0F, 0x0B, 0x01, 0x00, 0x06,
        0x00, 0x00, 0x01, 0x02, 0x00, 0x00, 0x00, 0x07, 0x0A, 0x00, 0x02, 0x87, 0x00, 0x88,
    ];

    // The lines of its listing, by the rules of the layout.
    const LISTED: [&str; 16] = [
        "parties: 2",
        "  party       0  frame 0000000000000003",
        "  party       1  frame 0000000000000002",
        "places: 3",
        "  input       0  party   0  value          4",
        "  input       1  party   1  value          0",
        "  cell        2             value          0  frame 0000000000000003",
        "tables: 0",
        "devices: 1",
        "  device      0  need  0000000000000001",
        "procedures: 1",
        "  procedure   0  party   0  body at   56,   15 bytes  height 1  at most 3 steps",
        "          block 0, the body",
        "      56    WHEN input 1 is not 0",
        "            block 1, if so",
        "      62      SET cell 2 to 7",
    ];

    const TOLD: [&str; 7] = [
        "parties: 2",
        "inputs: 2, cells: 1",
        "tables: 0",
        "devices: 1",
        "procedure 0 checked: height 1, at most 3 steps",
        "entries: 1",
        "accepted, with 3 blocks",
    ];

    // Each of these is shown by the text in its place, as far as there are texts.
    fn check_texts<T: Display>(
        rt: &impl Abort,
        heap: Global,
        shown: &[T],
        texts: &[&str],
    ) -> Result<(), Fail> {
        for (item, expected) in shown.iter().zip(texts.iter()) {
            let text = item.to_string(heap)?;
            assert!(rt; text.as_str() == *expected);
        }
        Ok(())
    }

    #[test]
    fn a_package_is_listed(rt: HostRuntime) -> Result<(), Fail> {
        let heap = rt.alloc();
        let held = load(heap, &SMALL)?;
        let lines = listing(heap, &held)?;
        assert_eq!(rt; lines.len(), 21);
        check_texts(&rt, heap, &lines, &LISTED)
    }

    #[test]
    fn the_steps_are_told(rt: HostRuntime) -> Result<(), Fail> {
        let heap = rt.alloc();
        let held = load(heap, &SMALL)?;
        let told = steps(heap, held.contents())?;
        assert_eq!(rt; told.len(), 7);
        check_texts(&rt, heap, &told, &TOLD)
    }

    #[test]
    fn an_input_as_target_is_explained(rt: HostRuntime) -> Result<(), Fail> {
        let heap = rt.alloc();
        let mut bytes = SMALL;
        bytes[63] = 1;
        let Err(refusal) = load(heap, &bytes) else {
            return Err(Fail::new("accepted"));
        };
        let text = Step::Refused(refusal).to_string(heap)?;
        assert!(rt; text.as_str() == "refused: 7 at offset 62");
        assert!(rt; cause(refusal) == "a command gives an input a value");
        let around = Excerpt {
            bytes: &bytes,
            offset: refusal.offset(),
        };
        let shown = around.to_string(heap)?;
        assert!(rt;
            shown.as_str()
                == "bytes from offset 54 on: 00 0f 0b 01 00 06 00 00 [01] 01 00 00 00 07 0a 00 02"
        );
        Ok(())
    }

    #[test]
    fn an_early_end_is_shown_behind_the_last_byte(rt: HostRuntime) -> Result<(), Fail> {
        let heap = rt.alloc();
        let (front, _) = SMALL.split_at(73);
        let Err(refusal) = load(heap, front) else {
            return Err(Fail::new("accepted"));
        };
        assert_eq!(rt; refusal.number(), 2);
        assert_eq!(rt; refusal.offset(), 73);
        let around = Excerpt {
            bytes: front,
            offset: refusal.offset(),
        };
        let shown = around.to_string(heap)?;
        assert!(rt; shown.as_str() == "bytes from offset 65 on: 00 00 07 0a 00 02 87 00 [end]");
        Ok(())
    }

    #[test]
    fn no_bytes_are_shown_of_none(rt: HostRuntime) -> Result<(), Fail> {
        let heap = rt.alloc();
        let around = Excerpt {
            bytes: &[],
            offset: 0,
        };
        let shown = around.to_string(heap)?;
        assert!(rt; shown.as_str() == "bytes from offset 0 on: [end]");
        Ok(())
    }

    // Places, and their text.
    const PLACES: [(&[u8], &str); 6] = [
        (&[], "  block       7  places none"),
        (&[0], "  block       7  places 0"),
        (&[0, 1, 2], "  block       7  places 0-2"),
        (&[1, 3, 5], "  block       7  places 1 3 5"),
        (&[0, 2, 3, 9], "  block       7  places 0 2-3 9"),
        (&[127, 254, 255], "  block       7  places 127 254-255"),
    ];

    #[test]
    fn neighbouring_places_are_a_range(rt: HostRuntime) -> Result<(), Fail> {
        let heap = rt.alloc();
        for (places, expected) in PLACES.iter() {
            let text = HeldText {
                holder: Holder::Block,
                number: 7,
                numbers: *places,
            };
            let shown = text.to_string(heap)?;
            assert!(rt; shown.as_str() == *expected);
        }
        Ok(())
    }

    #[test]
    fn rights_are_told_of_parties_and_devices(rt: HostRuntime) -> Result<(), Fail> {
        let heap = rt.alloc();
        let party = HeldText {
            holder: Holder::Party,
            number: 12,
            numbers: &[62, 63],
        };
        let shown = party.to_string(heap)?;
        assert!(rt; shown.as_str() == "  party      12  rights 62-63");
        let device = HeldText {
            holder: Holder::Device,
            number: 0,
            numbers: &[],
        };
        let shown = device.to_string(heap)?;
        assert!(rt; shown.as_str() == "  device      0  rights none");
        Ok(())
    }
}
