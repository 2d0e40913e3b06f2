//! What no clause says: that memory is had, and that the parts do what they are for.
use crate::{
    CleanSource, InFault, MemSink, MemSource, StdSink, StdSource, WriteFault, read_all, write_all,
};
use std::test::Fail;

fn is_input(got: Result<Vec<u8>, InFault>, want: Result<&[u8], InFault>) -> bool {
    match (got, want) {
        (Ok(got), Ok(want)) => got.as_slice() == want,
        (Err(got), Err(want)) => got == want,
        _ => false,
    }
}

#[test]
fn inputs_are_read(rt: HostRuntime) -> Result<(), Fail> {
    let alloc = rt.alloc();
    let read_fault = Err(InFault::ReadFault);
    let too_long = Err(InFault::TooLong);
    // The bytes, the piece, the calls that fail and the limit; what is read, and what a second try reads.
    let cases: [(&str, usize, &[u64], usize, Result<&[u8], InFault>, &str); 7] = [
        ("", 1, &[], 0, Ok(b"".as_slice()), ""),
        ("a", 1, &[], 0, too_long, ""),
        ("abc", 1, &[], 3, Ok(b"abc".as_slice()), ""),
        ("abcdef", 1, &[], 3, too_long, "ef"),
        ("abcdef", 2, &[1], 9, read_fault, "cdef"),
        ("abcdef", 2, &[3], 9, read_fault, ""),
        ("abcdef", 9, &[0], 3, read_fault, "abcdef"),
    ];
    // `max` and `min` show what `new` and `read_all` ask.
    for (bytes, piece, failing, limit, first, second) in cases {
        let failing = failing.to_vec(alloc)?;
        let mut source = MemSource::new(bytes.as_bytes().to_vec(alloc)?, piece.max(1), failing);
        let got = read_all(alloc, &mut source, limit.min(9));
        assert!(rt; is_input(got, first), "{bytes} by {piece}");
        let rest = read_all(alloc, &mut source, 9);
        assert!(rt;
            is_input(rest, Ok(second.as_bytes())),
            "after {bytes} by {piece}"
        );
    }
    Ok(())
}

#[test]
fn long_inputs_are_read(rt: HostRuntime) -> Result<(), Fail> {
    let alloc = rt.alloc();
    // Longer than one read, and no whole number of reads.
    let bytes = vec![in alloc; 7; 200_000]?;
    let mut source = CleanSource::new(bytes.clone()?, 50_000);
    let got = read_all(alloc, &mut source, 200_000);
    assert!(rt; is_input(got, Ok(&bytes)));
    Ok(())
}

#[test]
fn texts_are_written(rt: HostRuntime) -> Result<(), Fail> {
    let alloc = rt.alloc();
    let fault = Err(WriteFault);
    // The room, the calls that fail and two texts; the two answers, and what is held in the end.
    let cases: [(usize, &[u64], [&str; 2], [Result<(), WriteFault>; 2], &str); 5] = [
        (4, &[], ["ab", "cd"], [Ok(()), Ok(())], "abcd"),
        (4, &[], ["abcd", "e"], [Ok(()), fault], "abcd"),
        (3, &[], ["ab", "cd"], [Ok(()), fault], "abc"),
        (4, &[0], ["ab", "cd"], [fault, Ok(())], "cd"),
        (0, &[], ["", "a"], [Ok(()), fault], ""),
    ];
    for (room, failing, texts, answers, held) in cases {
        let mut sink = MemSink::new(alloc, room, failing.to_vec(alloc)?)?;
        for (text, answer) in texts.iter().zip(answers) {
            assert_eq!(rt;
                write_all(&mut sink, text.as_bytes()),
                answer,
                "{text} in {room}"
            );
        }
        assert_eq!(rt; sink.bytes(), held.as_bytes(), "{held} in {room}");
    }
    Ok(())
}

#[test]
fn std_is_read(rt: HostRuntime) -> Result<(), Fail> {
    let mut source = StdSource::new(b"abc".as_slice());
    let got = read_all(rt.alloc(), &mut source, 3);
    assert!(rt; is_input(got, Ok(b"abc")));
    Ok(())
}

#[test]
fn std_is_written(rt: HostRuntime) -> Result<(), Fail> {
    let mut text = Vec::new(rt.alloc());
    let mut sink = StdSink::new(&mut text);
    assert_eq!(rt; write_all(&mut sink, b"ab"), Ok(()));
    assert_eq!(rt; write_all(&mut sink, b"c"), Ok(()));
    assert_eq!(rt; text.as_slice(), b"abc".as_slice());
    Ok(())
}
