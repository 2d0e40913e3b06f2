//! Worked values of the table of refused words and of scans.
use crate::{Cause, Decoder, Ending, Fed, Scanned, scan};
use std::test::Fail;
use svga_cmd::{CommandRef, EntriesRef};

/// Nothing but a refused word.
fn refused(word: u32, cause: Cause) -> Scanned {
    Scanned {
        commands: 0,
        fence: 0,
        ending: Ending::Refused { word, cause },
    }
}

/// One whole command that is no FENCE.
const ONE: Scanned = Scanned {
    commands: 1,
    fence: 0,
    ending: Ending::Whole,
};

#[test]
fn refuses_ids_of_the_table(rt: HostRuntime) -> Result<(), Fail> {
    let causes = [
        (3, Cause::Unsupported),
        (19, Cause::Unsupported),
        (22, Cause::Unsupported),
        (25, Cause::Unsupported),
        (29, Cause::Unsupported),
        (39, Cause::Unsupported),
        (40, Cause::Unsupported),
        (33, Cause::Escape),
        (999, Cause::Unknown),
        (1000, Cause::ThreeD),
        (2999, Cause::ThreeD),
        (3000, Cause::Unknown),
        (0, Cause::Unknown),
        (2, Cause::Unknown),
        (43, Cause::Unknown),
        (4294967295, Cause::Unknown),
    ];
    for (id, cause) in causes {
        let mut decoder = Decoder::new(rt.alloc())?;
        assert_eq!(rt; scan(&mut decoder, &[id]), refused(0, cause), "id {id}");
    }
    Ok(())
}

#[test]
fn refuses_fields_of_the_table(rt: HostRuntime) -> Result<(), Fail> {
    for flags in [5, 7, 8] {
        let mut decoder = Decoder::new(rt.alloc())?;
        assert_eq!(rt;
            scan(&mut decoder, &[42, 1, flags]),
            refused(2, Cause::BadFlags)
        );
    }
    for format in [0, 0x1821, 0x0F0F, 0x1810] {
        let mut decoder = Decoder::new(rt.alloc())?;
        assert_eq!(rt;
            scan(&mut decoder, &[36, 1, 0, 16, format]),
            refused(4, Cause::BadFormat)
        );
    }
    let mut decoder = Decoder::new(rt.alloc())?;
    assert_eq!(rt; scan(&mut decoder, &[34, 32]), refused(1, Cause::BadSize));
    let mut decoder = Decoder::new(rt.alloc())?;
    assert_eq!(rt;
        scan(&mut decoder, &[42, 1, 4, 0, 65537]),
        refused(4, Cause::TooManyPages)
    );
    let mut decoder = Decoder::new(rt.alloc())?;
    assert_eq!(rt; scan(&mut decoder, &[42, 1, 4, 0, 65536, 7]), ONE);
    let mut decoder = Decoder::new(rt.alloc())?;
    assert_eq!(rt; scan(&mut decoder, &[34, 28, 0, 1, 640, 480, 0, 0]), ONE);
    assert_eq!(rt;
        scan(&mut decoder, &[34, 44, 0, 1, 640, 480, 0, 0, 1, 0, 2560, 1]),
        ONE
    );
    Ok(())
}

#[test]
fn counts_up_to_a_bad_word(rt: HostRuntime) -> Result<(), Fail> {
    let mut decoder = Decoder::new(rt.alloc())?;
    let none = Scanned {
        commands: 0,
        fence: 0,
        ending: Ending::Whole,
    };
    assert_eq!(rt; scan(&mut decoder, &[]), none);
    let torn = Scanned {
        commands: 2,
        fence: 9,
        ending: Ending::Torn { word: 6 },
    };
    assert_eq!(rt; scan(&mut decoder, &[30, 7, 30, 9, 41, 2]), torn);
    let mut decoder = Decoder::new(rt.alloc())?;
    let bad = Scanned {
        commands: 1,
        fence: 7,
        ending: Ending::Refused {
            word: 2,
            cause: Cause::ThreeD,
        },
    };
    assert_eq!(rt; scan(&mut decoder, &[30, 7, 1040]), bad);
    // It refuses for good.
    let refusal = Fed::Refused {
        cause: Cause::ThreeD,
    };
    assert_eq!(rt; decoder.feed(30), refusal);
    assert!(rt; decoder.command().is_none());
    Ok(())
}

#[test]
fn takes_the_longest_command(rt: HostRuntime) -> Result<(), Fail> {
    let mut decoder = Decoder::new(rt.alloc())?;
    for word in [42, 1, 2, 0, 65536] {
        assert_eq!(rt; decoder.feed(word), Fed::More);
    }
    for i in 0u32..131071 {
        assert_eq!(rt; decoder.feed(i), Fed::More, "entry word {i}");
    }
    assert_eq!(rt; decoder.feed(0), Fed::Whole);
    match decoder.command() {
        Some(
            CommandRef::RemapGmr2 {
                region,
                offset,
                pages,
                entries: EntriesRef::Ppn64(list),
            },
        ) => {
            assert_eq!(rt; (region, offset, pages), (1, 0, 65536));
            assert_eq!(rt; list.len(), 131072);
            assert_eq!(rt; list.get(2).copied(), Some(2));
        }
        _ => panic!(rt; "the longest remap"),
    }
    Ok(())
}
