//! Tests the digits of symbols that represent parameters: the listed ones, those of symbols whose digits multiply, and
//! that none remains when all of them are written out.

#[cfg(test)]
mod tests {
    use msvc_demangler::{BackReference, Error, back_references};
    use msvc_hostile::multiplied::multiplied;
    use std::alloc::{AllocError, Global};
    use std::test::Fail;

    /// Returns the digits of a symbol, each with its place and the start and end of its bytes.
    fn listed(alloc: Global, symbol: &str) -> Result<String, Error> {
        let mut text = String::new(alloc);
        for found in &back_references(alloc, symbol)? {
            let (at, start, end) = (found.at, found.start, found.end);
            let entry = format!(in alloc; "({at}, {start}, {end})")?;
            text.push_str(entry.as_str())?;
        }
        Ok(text)
    }

    /// Symbols and their digits. A digit inside a type, or after a `$`, is not listed.
    const ROWS: [(&str, &str); 12] = [
        ("?x@@3P6AHP6AHM@Z0@ZEA", "(16, 9, 16)"),
        ("?f@@YAX$X0@Z", "(9, 7, 9)"),
        ("?f@@YAXPAHPB0@Z", ""),
        ("?$f@PAH0", "(7, 4, 7)"),
        (
            "?f@@YAXPAHP6AX00@ZP6AX11@ZP6AX22@Z@Z",
            "(14, 7, 10)(15, 7, 10)(22, 10, 18)(23, 10, 18)(30, 18, 26)(31, 18, 26)",
        ),
        ("??$func@H$$ZH@@YAHAEBU?$Foo@H@@0@Z", "(31, 18, 31)"),
        ("?f@@YAXV?$A@PAH0@@PAD0@Z", "(15, 12, 15)(21, 7, 18)"),
        ("?f@@YAXV?$A@PAHPAH@@PAD0@Z", "(23, 7, 20)"),
        (
            "?f@@YAXV?$A@PAH0@@PADV?$A@PAH0@@@Z",
            "(15, 12, 15)(29, 26, 29)",
        ),
        ("?f@@YAXVA@@PAV1@1@Z", "(16, 11, 16)"),
        ("?f@@YAXPAHPADPAF$2@Z", ""),
        ("?f@@", ""),
    ];

    #[test]
    fn digits(rt: HostRuntime) -> Result<(), Fail> {
        for (symbol, digits) in ROWS {
            let listed = listed(rt.alloc(), symbol)?;
            assert_eq!(rt; listed.as_str(), digits);
        }
        Ok(())
    }

    #[test]
    fn rejected(rt: HostRuntime) -> Result<(), Fail> {
        let refusal = back_references(rt.alloc(), "?x").err().ok_or("read")?;
        let shown = format!(in rt.alloc(); "{refusal}")?;
        assert_eq!(rt;
            shown.as_str(),
            "read_string: missing b'@' (offset: 1, remaining: \"x\")"
        );
        Ok(())
    }

    #[test]
    fn digits_that_multiply(rt: HostRuntime) -> Result<(), Fail> {
        let three = multiplied(rt.alloc(), 3)?;
        assert_eq!(rt; three.as_str(), "?f@@YAXPAHP6AX00@ZP6AX11@ZP6AX22@Z@Z");
        let ten = multiplied(rt.alloc(), 10)?;
        assert_eq!(rt; ten.len(), 92);
        assert_eq!(rt; back_references(rt.alloc(), ten.as_str())?.len(), 20);
        Ok(())
    }

    /// Returns a variable of a template with functions as above for its arguments, whose first is such a template
    /// again, down to a depth: each level has a thousand times the nodes of the next one, and 79 bytes more.
    fn nested(alloc: Global, depth: u32) -> Result<String, AllocError> {
        let mut text = String::from_str(alloc, "?x@@3")?;
        for _ in 0..=depth {
            text.push_str("V?$A@")?;
        }
        text.push_str("PAH")?;
        for _ in 0..=depth {
            text.push_str("P6AX00@ZP6AX11@ZP6AX22@ZP6AX33@ZP6AX44@Z")?;
            text.push_str("P6AX55@ZP6AX66@ZP6AX77@ZP6AX88@Z@@")?;
        }
        text.push('A')?;
        Ok(text)
    }

    #[test]
    fn digits_of_nested_templates(rt: HostRuntime) -> Result<(), Fail> {
        for (depth, length, digits) in [(0, 88, 18), (1, 167, 36), (20, 1668, 378)] {
            let text = nested(rt.alloc(), depth)?;
            assert_eq!(rt; text.len(), length);
            assert_eq!(rt; back_references(rt.alloc(), text.as_str())?.len(), digits);
        }
        Ok(())
    }

    /// Returns the symbol with the bytes of its type in place of the digit.
    fn written_out(
        alloc: Global,
        symbol: &str,
        reference: BackReference,
    ) -> Result<String, AllocError> {
        let before = symbol.get(..reference.at).unwrap_or("");
        let bytes = symbol.get(reference.start..reference.end).unwrap_or("");
        let after = symbol.get(reference.at.saturating_add(1)..).unwrap_or("");
        format!(in alloc; "{before}{bytes}{after}")
    }

    /// Returns a symbol with its first digit written out `times` times.
    fn without_digits(alloc: Global, text: String, times: u32) -> Result<String, Error> {
        let mut text = text;
        for _ in 0..times {
            let found = back_references(alloc, text.as_str())?;
            if let Some(first) = found.first() {
                text = written_out(alloc, text.as_str(), *first)?;
            }
        }
        Ok(text)
    }

    #[test]
    fn all_written_out(rt: HostRuntime) -> Result<(), Fail> {
        let long = without_digits(rt.alloc(), multiplied(rt.alloc(), 5)?, 10)?;
        assert_eq!(rt; back_references(rt.alloc(), long.as_str())?.len(), 0);
        Ok(())
    }
}
