//! Tests the public calls on errors and sets, each once, with ample memory, against the documents.
//! `tests/library/trees.rs` tests the debug text of trees, without a proof.

#[cfg(test)]
mod tests {
    use msvc_demangler::{DemangleFlags, Error, Flags, StorageClass, demangle};
    use std::str::from_utf8;
    use std::test::Fail;

    #[test]
    fn messages(rt: HostRuntime) -> Result<(), Fail> {
        let error = Error::new(rt.alloc(), "no");
        assert_eq!(rt; error.offset(), None);
        assert!(rt; !error.is_out_of_memory());
        let shown = format!(in rt.alloc(); "{error}")?;
        assert_eq!(rt; shown.as_str(), "no");
        Ok(())
    }

    #[test]
    fn causes(rt: HostRuntime) -> Result<(), Fail> {
        let cause = from_utf8(b"a\xFF").err().ok_or("read")?;
        let error = Error::from(cause);
        let shown = format!(in rt.alloc(); "{error}")?;
        assert_eq!(rt;
            shown.as_str(),
            "invalid utf-8 sequence of 1 bytes from index 1"
        );
        Ok(())
    }

    /// Tests that an error shows up to 20 bytes of the rest, also if they end inside a character.
    #[test]
    fn rejections(rt: HostRuntime) -> Result<(), Fail> {
        let rows = [
            (
                "nopenopenopenopenopenope",
                "does not start with b'?' (offset: 0, remaining: \"nopenopenopenopenope...\")",
            ),
            (
                "aaaaaaaaaaaaaaaaaaa\u{E9}",
                "does not start with b'?' (offset: 0, remaining: \"aaaaaaaaaaaaaaaaaaa\u{FFFD}...\")",
            ),
        ];
        for (text, wanted) in rows {
            let refusal = demangle(rt.alloc(), text, DemangleFlags::llvm())
                .err()
                .ok_or("read")?;
            assert_eq!(rt; refusal.offset(), Some(0));
            let shown = format!(in rt.alloc(); "{refusal}")?;
            assert_eq!(rt; shown.as_str(), wanted);
        }
        Ok(())
    }

    #[test]
    fn sets(rt: HostRuntime) {
        let both = StorageClass::CONST.union(StorageClass::VOLATILE);
        assert_eq!(rt; both.bits(), 3);
        assert!(rt; both.contains(StorageClass::CONST));
        assert!(rt; both.contains(StorageClass::VOLATILE));
        assert!(rt; !StorageClass::empty().contains(StorageClass::CONST));
        assert_eq!(rt; StorageClass::from_bits(3), Some(both));
        assert!(rt; DemangleFlags::from_bits(1).is_none());
        assert!(rt; DemangleFlags::from_bits(0x1F01EE6).is_some());
        assert_eq!(rt; DemangleFlags::empty().bits(), 0);
        assert_eq!(rt; DemangleFlags::llvm().bits(), 0xE00400);
    }

    /// Tests that a flag without a new bit is omitted, and that bits without a flag come last.
    #[test]
    fn sets_listed(rt: HostRuntime) {
        let set = DemangleFlags::from_bits_retain(0x61);
        let mut flags = set.iter();
        assert_eq!(rt; flags.next().map(|flag| flag.bits()), Some(0x40));
        assert_eq!(rt; flags.next().map(|flag| flag.bits()), Some(0x20));
        assert_eq!(rt; flags.next().map(|flag| flag.bits()), Some(1));
        assert!(rt; flags.next().is_none());
        let mut names = set.iter_names();
        assert_eq!(rt; names.next().map(|named| named.0), Some("NO_CV_THISTYPE"));
        assert_eq!(rt; names.next().map(|named| named.0), Some("NO_MS_THISTYPE"));
        assert!(rt; names.next().is_none());
    }
}
