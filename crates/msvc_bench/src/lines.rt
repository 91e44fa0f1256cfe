//! Tests `undname` over lines and words, on streams in memory, with ample memory, against the documents, also if a
//! stream fails.

#[cfg(test)]
mod tests {
    use crate::streams::{Failing, Reader, Writer};
    use msvc_demangler::{Fault, Watched, undname_lines, undname_run};
    use std::alloc::{AllocError, Global};
    use std::io::ErrorKind;
    use std::test::Fail;

    /// A symbol, a line that is rejected, one that is not UTF-8, and one without a line feed.
    const LINES: &[u8] = b"?x@@3HA\r\nnope\n\xFF\n?f@@";

    const TEXT: &[u8] = b"int x\nnope\nf\n";

    const REFUSAL: &[u8] = b"error: does not start with b'?' (offset: 0, remaining: \"nope\")\n";

    /// Returns both outputs of a run over bytes, and its result.
    fn filtered(alloc: Global, bytes: &[u8]) -> (Vec<u8>, Vec<u8>, Result<(), Fault>) {
        let mut input = Watched::new(bytes);
        let mut out = Watched::new(Vec::new(alloc));
        let mut err = Watched::new(Vec::new(alloc));
        let done = undname_lines(alloc, &mut input, &mut out, &mut err, false);
        (out.into_inner(), err.into_inner(), done)
    }

    #[test]
    fn lines(rt: HostRuntime) -> Result<(), Fail> {
        let rejected: &[u8] = b"error: unknown func class (offset: 5, remaining: \"\")\n";
        let empty: &[u8] = b"error: does not start with b'?' (offset: 0, remaining: \"\")\n";
        let rows: [(&[u8], &[u8], &[u8]); 9] = [
            (LINES, TEXT, REFUSAL),
            (b"", b"", b""),
            (b"\n", b"\n", empty),
            (b"\r\n", b"\n", empty),
            (b"?f@@\r", b"?f@@\r\n", rejected),
            (b"?f@@\r\r\n", b"?f@@\r\n", rejected),
            (b"?f@@\n?x@@3HA", b"f\nint x\n", b""),
            (b"?f@@\r\n", b"f\n", b""),
            (b"\xFF\r\n?f@@\xFF", b"", b""),
        ];
        for (bytes, text, rejections) in rows {
            let (out, err, done) = filtered(rt.alloc(), bytes);
            assert_eq!(rt; done, Ok(()));
            let filtered = (out, err);
            assert!(rt; filtered == run(rt.alloc(), &[], bytes)?);
            assert_eq!(rt; filtered.0.as_slice(), text);
            assert_eq!(rt; filtered.1.as_slice(), rejections);
        }
        Ok(())
    }

    /// The streams of a run.
    #[derive(Drop)]
    struct Streams<'a> {
        input: Reader<'a>,
        out: Writer,
        err: Writer,
    }

    /// The end of a run: its result, whether the reader, `out` and `err` have failed, and the number of calls after a
    /// failure.
    #[derive(Debug, PartialEq, Eq, Drop)]
    struct End {
        done: Result<(), Fault>,
        marked: (bool, bool, bool),
        late: usize,
    }

    /// Runs over a reader of `LINES` and two writers, all with a limit on the bytes of a call, which fail as given.
    fn run_over(
        alloc: Global,
        most: usize,
        input: Failing,
        out: Failing,
        err: Failing,
    ) -> (End, Streams<'static>) {
        let mut input = Watched::new(Reader::new(LINES, most, input));
        let mut out = Watched::new(Writer::new(alloc, most, out));
        let mut err = Watched::new(Writer::new(alloc, most, err));
        let done = undname_lines(alloc, &mut input, &mut out, &mut err, false);
        let marked = (input.failed(), out.failed(), err.failed());
        let (input, out, err) = (input.into_inner(), out.into_inner(), err.into_inner());
        let late = input.failing.late().saturating_add(out.failing.late());
        let late = late.saturating_add(err.failing.late());
        (End { done, marked, late }, Streams { input, out, err })
    }

    /// Returns the unread bytes, and the contents of `out` and `err`.
    fn contents<'a>(streams: &'a Streams<'_>) -> (&'a [u8], &'a [u8], &'a [u8]) {
        let Streams { input, out, err } = streams;
        (input.bytes, out.taken.as_slice(), err.taken.as_slice())
    }

    #[test]
    fn single_bytes(rt: HostRuntime) {
        let unmarked = End {
            done: Ok(()),
            marked: (false, false, false),
            late: 0,
        };
        let (input, out, err) = (Failing::never(), Failing::never(), Failing::never());
        let (end, streams) = run_over(rt.alloc(), 1, input, out, err);
        assert_eq!(rt; end, unmarked);
        assert_eq!(rt; contents(&streams), (b"".as_slice(), TEXT, REFUSAL));
    }

    /// The most bytes that a stream moves in a call, and how it fails: a reader by an error, a writer also by taking no
    /// byte.
    const FAILURES: [(usize, Option<ErrorKind>); 6] = [
        (1, Some(ErrorKind::Other)),
        (1, Some(ErrorKind::Interrupted)),
        (usize::MAX, Some(ErrorKind::Other)),
        (usize::MAX, Some(ErrorKind::Interrupted)),
        (1, None),
        (usize::MAX, None),
    ];

    #[test]
    fn failing_readers(rt: HostRuntime) {
        let failed = End {
            done: Err(Fault::Read),
            marked: (true, false, false),
            late: 0,
        };
        // The first and the last place at which the reader fails, and the output then: the results of earlier lines.
        let rows: [(usize, usize, &[u8], &[u8]); 3] = [
            (0, 9, b"", b""),
            (9, 14, b"int x\n", b""),
            (14, 21, b"int x\nnope\n", REFUSAL),
        ];
        for (first, end, text, rejections) in rows {
            for place in first..end {
                for (most, error) in &FAILURES[..4] {
                    let fails = Failing::after(place, *error);
                    let (end, streams) = run_over(
                        rt.alloc(),
                        *most,
                        fails,
                        Failing::never(),
                        Failing::never(),
                    );
                    assert_eq!(rt; end, failed, "at {place}");
                    assert_eq!(rt;
                        contents(&streams),
                        (&LINES[place..], text, rejections),
                        "at {place}"
                    );
                }
            }
        }
    }

    #[test]
    fn failing_writers(rt: HostRuntime) {
        let failed = End {
            done: Err(Fault::Write),
            marked: (false, true, false),
            late: 0,
        };
        // The first and the last place at which `out` fails, the unread bytes then, and the contents of `err`.
        let rows: [(usize, usize, &[u8], &[u8]); 3] = [
            (0, 6, b"nope\n\xFF\n?f@@", b""),
            (6, 11, b"\xFF\n?f@@", REFUSAL),
            (11, 13, b"", REFUSAL),
        ];
        for (first, end, left, rejections) in rows {
            for place in first..end {
                for (most, error) in &FAILURES {
                    let fails = Failing::after(place, *error);
                    let (end, streams) = run_over(
                        rt.alloc(),
                        *most,
                        Failing::never(),
                        fails,
                        Failing::never(),
                    );
                    assert_eq!(rt; end, failed, "at {place}");
                    assert_eq!(rt;
                        contents(&streams),
                        (left, &TEXT[..place], rejections),
                        "at {place}"
                    );
                }
            }
        }
    }

    #[test]
    fn failing_writers_of_rejections(rt: HostRuntime) {
        let failed = End {
            done: Err(Fault::Write),
            marked: (false, false, true),
            late: 0,
        };
        let (left, text): (&[u8], &[u8]) = (b"\xFF\n?f@@", b"int x\n");
        for place in 0..REFUSAL.len() {
            for (most, error) in &FAILURES {
                let fails = Failing::after(place, *error);
                let (end, streams) = run_over(
                    rt.alloc(),
                    *most,
                    Failing::never(),
                    Failing::never(),
                    fails,
                );
                assert_eq!(rt; end, failed, "at {place}");
                assert_eq!(rt;
                    contents(&streams),
                    (left, text, &REFUSAL[..place]),
                    "at {place}"
                );
            }
        }
    }

    /// Returns both outputs and the result of a run with these words and these bytes as input.
    fn run(alloc: Global, words: &[&str], bytes: &[u8]) -> Result<(Vec<u8>, Vec<u8>), AllocError> {
        let mut owned = Vec::new(alloc);
        for word in words {
            owned.push(String::from_str(alloc, word)?)?;
        }
        let mut input = Watched::new(bytes);
        let mut out = Watched::new(Vec::new(alloc));
        let mut err = Watched::new(Vec::new(alloc));
        match undname_run(alloc, &owned, &mut input, &mut out, &mut err) {
            Ok(()) => Ok((out.into_inner(), err.into_inner())),
            Err(_) => Err(AllocError),
        }
    }

    #[test]
    fn words(rt: HostRuntime) -> Result<(), Fail> {
        let dashed: &[u8] = b"error: does not start with b'?' (offset: 0, remaining: \"-v\")\n";
        let empty: &[u8] = b"error: does not start with b'?' (offset: 0, remaining: \"\")\n";
        let rows: [(&[&str], &[u8], &[u8]); 5] = [
            (&[], b"f\n", b""),
            (&["?x@@3HA"], b"int x\n", b""),
            (&["?f@@", "-v"], b"f\n-v\n", dashed),
            (&[""], b"\n", empty),
            (&["-v", "-v"], b"-v\n", dashed),
        ];
        for (words, text, rejections) in rows {
            let (out, err) = run(rt.alloc(), words, b"?f@@")?;
            assert_eq!(rt; out.as_slice(), text);
            assert_eq!(rt; err.as_slice(), rejections);
        }
        let (out, err) = run(rt.alloc(), &["-v"], b"?x@@3PEAY1NKM@5HEA")?;
        assert_eq!(rt; out.as_slice(), b"int (*x)[3500][6]\n".as_slice());
        assert_eq!(rt;
            err.as_slice(),
            b"x: Var(Global FAR Ptr(Array(3500 Array(6 Int))))\n".as_slice()
        );
        Ok(())
    }

    /// Returns the symbol of a variable with a name of a megabyte, and its declaration.
    fn long_line(alloc: Global) -> Result<(Vec<u8>, Vec<u8>), AllocError> {
        let mut symbol = Vec::new(alloc);
        let mut text = Vec::new(alloc);
        symbol.push(b'?')?;
        text.extend_from_slice(b"int ")?;
        for _ in 0..1_000_000u32 {
            symbol.push(b'x')?;
            text.push(b'x')?;
        }
        symbol.extend_from_slice(b"@@3HA\n")?;
        text.push(b'\n')?;
        Ok((symbol, text))
    }

    #[test]
    fn megabyte(rt: HostRuntime) -> Result<(), Fail> {
        let (symbol, text) = long_line(rt.alloc())?;
        let (out, err, done) = filtered(rt.alloc(), symbol.as_slice());
        assert_eq!(rt; done, Ok(()));
        assert!(rt; out == text);
        assert!(rt; err.is_empty());
        Ok(())
    }
}
