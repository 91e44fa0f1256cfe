//! Tests the filter over texts, on streams in memory, against `docs/msvcfilt.md`, also if a stream fails.

#[cfg(test)]
mod tests {
    use crate::streams::{Failing, Reader, Writer};
    use msvc_demangler::{
        DemangleFlags, Demangler, Fault, Flags, Grammar, Watched, filter_slice, filter_slice_in,
        filter_text, filter_text_in,
    };
    use std::alloc::{AllocError, Global};
    use std::io::ErrorKind;
    use std::test::Fail;

    /// Returns the output of the filter for some bytes, and its result.
    fn filtered(alloc: Global, bytes: &[u8], flags: DemangleFlags) -> (Vec<u8>, Result<(), Fault>) {
        let mut input = Watched::new(bytes);
        let mut out = Watched::new(Vec::new(alloc));
        let done = filter_text(alloc, &mut input, &mut out, flags);
        (out.into_inner(), done)
    }

    /// Texts and their filtered forms.
    const TEXTS: [(&[u8], &[u8]); 19] = [
        (b"", b""),
        (b"\n\r\n\0", b"\n\r\n\0"),
        (b"?x@@3HA", b"int x"),
        (
            b"?x@@3HA ?f@@YAXXZ\r\n?x@@3HA",
            b"int x void __cdecl f(void)\r\nint x",
        ),
        (
            b"foo!?crash@@YAXXZ+0x12 [a.cpp @ 17]",
            b"foo!void __cdecl crash(void)+0x12 [a.cpp @ 17]",
        ),
        (
            b"\"?x@@3PEBHEB\", <?f@@YAXXZ+0x5>",
            b"\"int const *x\", <void __cdecl f(void)+0x5>",
        ),
        (
            b"$unwind$?f@@YAXXZ ?f@@YAXXZ$filt$0 ?f@@YAXXZ.cold",
            b"$unwind$void __cdecl f(void) void __cdecl f(void)$filt$0 void __cdecl f(void).cold",
        ),
        (
            b"??_C@_05CJBACGMB@hello?$AA@ .?AVA@@ _TI1?AVA@@",
            b"`string' .?AVA@@ _TI1?AVA@@",
        ),
        (
            b"Really?! a?b:c ??= ?q=foo@bar.com WHERE a=? AND b=?@x",
            b"Really?! a?b:c ??= ?q=foo@bar.com WHERE a=? AND b=?@x",
        ),
        (
            b"__imp_?f@@YAXXZ $pdata$?f@@YAXXZ $LN5@?f@@YAXXZ",
            b"__imp_void __cdecl f(void) $pdata$void __cdecl f(void) $LN5@void __cdecl f(void)",
        ),
        // A second `?` of a word that is no symbol begins none; one after a symbol may, by the byte before it.
        (b"?1_?x@@3HA -?x@@3HA", b"?1_?x@@3HA -int x"),
        (
            b"?x@@3HA$?x@@3HA ?x@@3HA?x@@3HA",
            b"int x$int x int x?x@@3HA",
        ),
        // A trailing byte belongs to its symbol only at the end of the word; a word that continues is no symbol.
        (
            b"?f@@YAXXZ@ ?f@@YAXXZB, ?f@@YAXXZBb ?f@@YAXXZ@@ ?f@@YAXXZ?",
            b"void __cdecl f(void) void __cdecl f(void), ?f@@YAXXZBb ?f@@YAXXZ@@ void __cdecl f(void)?",
        ),
        // A pointer to a member that is no function: no form of the grammar, which reads the beginning of it.
        (b"?mp@@3PEQD@@HEQ1@", b"?mp@@3PEQD@@HEQ1@"),
        // Names have bytes that words have not; a byte that is not UTF-8 ends a candidate.
        (b"?<f>@@3HA?x", b"int <f>?x"),
        (b"?\xC3\xA9@@3HA\xFF?x@@3HA", b"int \xC3\xA9\xFFint x"),
        (b"?\xFF@@3HA ?f\x7F@@3HA", b"?\xFF@@3HA ?f\x7F@@3HA"),
        // A word with a `?` continues over letters, and ends at the first byte that no word has.
        (
            b"a?bc$d_0@?x@@3HA a?bc$d-?x@@3HA a?b cd-e?x@@3HA a?b c-?x@@3HA",
            b"a?bc$d_0@?x@@3HA a?bc$d-int x a?b cd-e?x@@3HA a?b c-int x",
        ),
        // Candidates that end at the 16th byte and at the 17th.
        (
            b"?aaaaaaaaaaaaaa\x7F@@3HA ?aaaaaaaaaaaaaa\x1F@@3HA ?aaaaaaaaaaaaaaa\x7F@@3HA ?aaaaaaaaaa@@3HA ?b@@3HA",
            b"?aaaaaaaaaaaaaa\x7F@@3HA ?aaaaaaaaaaaaaa\x1F@@3HA ?aaaaaaaaaaaaaaa\x7F@@3HA int aaaaaaaaaa int b",
        ),
    ];

    #[test]
    fn texts(rt: HostRuntime) {
        for (bytes, text) in TEXTS {
            let (out, done) = filtered(rt.alloc(), bytes, DemangleFlags::llvm());
            assert_eq!(rt; done, Ok(()));
            assert_eq!(rt; out.as_slice(), text);
        }
    }

    /// Texts and their forms where the symbols of Full are replaced.
    const TEXTS_OF_FULL: [(&[u8], &[u8]); 7] = [
        (b"f!?f@@YAXXZ+0x5", b"f!void __cdecl f(void)+0x5"),
        // The name of a type starts at a full stop that follows no word.
        (
            b".?AVfoo@@ a .?AVfoo@@\r\n..?AVfoo@@",
            b"class foo `RTTI Type Descriptor Name' a class foo `RTTI Type Descriptor Name'\r\n.class foo `RTTI Type Descriptor Name'",
        ),
        (
            b"a.?AVfoo@@ 1.?AVfoo@@ _.?AVfoo@@ @.?AVfoo@@ $.?AVfoo@@",
            b"a.?AVfoo@@ 1.?AVfoo@@ _.?AVfoo@@ @.?AVfoo@@ $.?AVfoo@@",
        ),
        (b"end. See a.b, ...", b"end. See a.b, ..."),
        // A funclet starts a word, and no other byte of one.
        (
            b"?dtor$12@?0??u@@YAXXZ@4HA+1 ?fin$1@0@m@C@ns@@",
            b"int `void __cdecl u(void)'::`1'::dtor$12+1 `ns::C::m'::fin$1",
        ),
        (
            b"_?catch$0@?0?main@4HA $?dtor$0@?0?main@4HA @?filt$0@0@main@@ _?fin$0@0@main@@",
            b"_?catch$0@?0?main@4HA $?dtor$0@?0?main@4HA @?filt$0@0@main@@ _?fin$0@0@main@@",
        ),
        // No byte is taken that was not read.
        (
            b"?f@@YAXXZB ?f@@YAXXZ@ _?f@@YAXXZ$filt$0",
            b"?f@@YAXXZB ?f@@YAXXZ@ _void __cdecl f(void)$filt$0",
        ),
    ];

    #[test]
    fn texts_of_full(rt: HostRuntime) -> Result<(), Fail> {
        let mut demangler = Demangler::with_grammar(rt.alloc(), Grammar::Full);
        let flags = DemangleFlags::llvm();
        for (bytes, text) in TEXTS_OF_FULL {
            let mut input = Watched::new(bytes);
            let mut out = Watched::new(Vec::new(rt.alloc()));
            let done = filter_text_in(&mut demangler, &mut input, &mut out, flags);
            assert_eq!(rt; done, Ok(()));
            assert_eq!(rt; out.into_inner().as_slice(), text);
            let mut slice = Vec::from_elem(rt.alloc(), 0u8, text.len())?;
            let filtered = filter_slice_in(&mut demangler, bytes, flags, &mut slice)?;
            assert_eq!(rt; filtered.length, text.len());
            assert_eq!(rt; slice.as_slice(), text);
        }
        Ok(())
    }

    /// Tests that a slice of any size gets a beginning of the text, and that no byte after it changes.
    #[test]
    fn slices(rt: HostRuntime) -> Result<(), Fail> {
        for (bytes, text) in TEXTS {
            for size in 0..text.len().saturating_add(2) {
                let mut out = around(rt.alloc(), b"", 0xFE, size, b"")?;
                let filtered = filter_slice(rt.alloc(), bytes, DemangleFlags::llvm(), &mut out)?;
                assert_eq!(rt; filtered.length, text.len());
                assert_eq!(rt; filtered.written, written_of(text, size));
                assert_eq!(rt; out.get(..filtered.written), text.get(..filtered.written));
                assert!(rt; out.iter().skip(filtered.written).all(|byte| *byte == 0xFE));
            }
        }
        Ok(())
    }

    /// Returns how many bytes of a text a slice gets: it doesn't split the only character of two bytes, the first of
    /// which is 0xC3.
    fn written_of(text: &[u8], size: usize) -> usize {
        let cut = size.min(text.len());
        match &text[..cut] {
            [.., 0xC3] => cut - 1,
            _ => cut,
        }
    }

    #[test]
    fn names_alone(rt: HostRuntime) {
        let flags = DemangleFlags::llvm().union(DemangleFlags::NAME_ONLY);
        let (out, done) = filtered(rt.alloc(), b"a!?f@n@@YAXXZ+1", flags);
        assert_eq!(rt; done, Ok(()));
        assert_eq!(rt; out.as_slice(), b"a!n::f+1".as_slice());
    }

    /// Returns `count` bytes with others on both sides.
    fn around(
        alloc: Global,
        before: &[u8],
        byte: u8,
        count: usize,
        after: &[u8],
    ) -> Result<Vec<u8>, AllocError> {
        let mut bytes = Vec::from_slice(alloc, before)?;
        for _ in 0..count {
            bytes.push(byte)?;
        }
        bytes.extend_from_slice(after)?;
        Ok(bytes)
    }

    /// Tests the longest candidate, and a storage class after it.
    #[test]
    fn longest_candidates(rt: HostRuntime) -> Result<(), Fail> {
        for (count, is_symbol) in [(4_091, true), (4_092, false)] {
            let symbol = around(rt.alloc(), b"?", b'x', count, b"@@3HA")?;
            let text = around(rt.alloc(), b"int ", b'x', count, b"")?;
            let (out, done) = filtered(rt.alloc(), &symbol, DemangleFlags::llvm());
            assert_eq!(rt; done, Ok(()));
            assert!(rt; out == if is_symbol { text } else { symbol });
        }
        Ok(())
    }

    /// Tests parameters of one class with a long name: a declaration that is too long is not shown.
    #[test]
    fn longest_declarations(rt: HostRuntime) -> Result<(), Fail> {
        for (more, is_symbol) in [(20, true), (21, false)] {
            let mut symbol = around(rt.alloc(), b"?f@@YAXV", b'x', 3_000, b"@@")?;
            let mut text = around(rt.alloc(), b"void __cdecl f(class ", b'x', 3_000, b"")?;
            let parameter = around(rt.alloc(), b", class ", b'x', 3_000, b"")?;
            for _ in 0..more {
                symbol.push(b'0')?;
                text.extend_from_slice(&parameter)?;
            }
            symbol.extend_from_slice(b"@Z")?;
            text.push(b')')?;
            let (out, done) = filtered(rt.alloc(), &symbol, DemangleFlags::llvm());
            assert_eq!(rt; done, Ok(()));
            let wanted = if is_symbol { text } else { symbol };
            let (shown, expected) = (out.len(), wanted.len());
            assert!(rt;
                out == wanted,
                "with {more} digits: {shown} bytes, expected {expected}"
            );
        }
        Ok(())
    }

    /// A line with a symbol and one that no line feed ends.
    const LINES: &[u8] = b"a ?x@@3HA\r\nb\n?f@@YAXXZ";

    const TEXT: &[u8] = b"a int x\r\nb\nvoid __cdecl f(void)";

    /// The most bytes that a stream moves in a call, and how it fails: a reader by an error, a writer also by taking no
    /// byte.
    const FAILURES: [(usize, Option<ErrorKind>); 4] = [
        (1, Some(ErrorKind::Other)),
        (usize::MAX, Some(ErrorKind::Interrupted)),
        (1, None),
        (usize::MAX, None),
    ];

    /// Runs over a reader of `LINES` and a writer, both with a limit on the bytes of a call, which fail as given.
    /// Returns the result, the failed streams, the number of calls after a failure, the unread bytes and the output.
    fn run_over(
        alloc: Global,
        most: usize,
        input: Failing,
        out: Failing,
    ) -> (
        Result<(), Fault>,
        (bool, bool, usize),
        &'static [u8],
        Vec<u8>,
    ) {
        let mut input = Watched::new(Reader::new(LINES, most, input));
        let mut out = Watched::new(Writer::new(alloc, most, out));
        let done = filter_text(alloc, &mut input, &mut out, DemangleFlags::llvm());
        let marked = (input.failed(), out.failed());
        let (input, out) = (input.into_inner(), out.into_inner());
        let late = input.failing.late().saturating_add(out.failing.late());
        (done, (marked.0, marked.1, late), input.bytes, out.taken)
    }

    /// Tests few bytes at a time: from 2 on, the reader shows some lines whole and others in parts.
    #[test]
    fn few_bytes_at_a_time(rt: HostRuntime) {
        for most in 1..=LINES.len() {
            let (done, marks, left, text) = run_over(
                rt.alloc(),
                most,
                Failing::never(),
                Failing::never(),
            );
            assert_eq!(rt; done, Ok(()));
            assert_eq!(rt; marks, (false, false, 0));
            assert!(rt; left.is_empty());
            assert_eq!(rt; text.as_slice(), TEXT, "{most} at a time");
        }
    }

    #[test]
    fn failing_readers(rt: HostRuntime) {
        for place in 0..LINES.len() {
            let finished = match place {
                0..11 => 0,
                11..13 => 9,
                _ => 11,
            };
            for (most, error) in &FAILURES[..2] {
                let fails = Failing::after(place, *error);
                let (done, marks, left, text) = run_over(
                    rt.alloc(),
                    *most,
                    fails,
                    Failing::never(),
                );
                assert_eq!(rt; done, Err(Fault::Read));
                assert_eq!(rt; marks, (true, false, 0));
                assert_eq!(rt; left, &LINES[place..]);
                assert_eq!(rt; text.as_slice(), &TEXT[..finished], "at {place}");
            }
        }
    }

    #[test]
    fn failing_writers(rt: HostRuntime) {
        for place in 0..TEXT.len() {
            for (most, error) in &FAILURES {
                let fails = Failing::after(place, *error);
                let (done, marks, _, text) = run_over(rt.alloc(), *most, Failing::never(), fails);
                assert_eq!(rt; done, Err(Fault::Write));
                assert_eq!(rt; marks, (false, true, 0));
                assert_eq!(rt; text.as_slice(), &TEXT[..place], "at {place}");
            }
        }
    }
}
