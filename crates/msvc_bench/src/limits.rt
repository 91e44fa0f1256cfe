//! Tests the limits on nodes and bytes: the one that a call names, at which offset, and what the default limits allow.

#[cfg(test)]
mod tests {
    use msvc_demangler::{
        DEFAULT_BYTE_LIMIT, DEFAULT_NODE_LIMIT, DemangleFlags, Error, Limit, demangle,
        demangle_within, parse_within, symbol_length_within,
    };
    use std::alloc::{AllocError, Global};
    use std::test::Fail;

    /// No limit.
    const ANY: usize = usize::MAX;

    /// The symbol of all rows: four nodes, the last from byte 9 on, 10 bytes that the grammar reads, and a declaration
    /// of 6 bytes.
    const SYMBOL: &str = "?x@@3PEAHEA";

    /// The error for a limit: the limit, and the offset.
    type Exceeded = Option<(Limit, usize)>;

    /// Limits on nodes and on bytes, and the error of `demangle_within` under them.
    const LIMITS: [(usize, usize, Exceeded); 12] = [
        (ANY, ANY, None),
        (4, 6, None),
        (4, ANY, None),
        (ANY, 6, None),
        (5, 7, None),
        (4, 5, Some((Limit::Bytes, 10))),
        (ANY, 5, Some((Limit::Bytes, 10))),
        (4, 0, Some((Limit::Bytes, 10))),
        (3, 6, Some((Limit::Nodes, 9))),
        (3, ANY, Some((Limit::Nodes, 9))),
        (3, 5, Some((Limit::Nodes, 9))),
        (0, 0, Some((Limit::Nodes, 1))),
    ];

    /// Returns the limit and the offset of an error.
    fn exceeded(error: &Error) -> Exceeded {
        Some((error.limit()?, error.offset()?))
    }

    #[test]
    fn limits(rt: HostRuntime) -> Result<(), Fail> {
        for (nodes, bytes, wanted) in LIMITS {
            match demangle_within(rt.alloc(), SYMBOL, DemangleFlags::llvm(), nodes, bytes) {
                Ok(text) => {
                    assert_eq!(rt; text.as_str(), "int *x");
                    assert_eq!(rt; wanted, None);
                }
                Err(error) => {
                    assert!(rt; error.is_over_limit());
                    assert_eq!(rt; exceeded(&error), wanted);
                }
            }
        }
        Ok(())
    }

    /// Tests the messages of errors for limits, and of one that is none.
    #[test]
    fn messages(rt: HostRuntime) -> Result<(), Fail> {
        let rows = [
            (
                SYMBOL,
                4,
                5,
                "longer than allowed (offset: 10, remaining: \"A\")",
            ),
            (
                "?x@@3HA and",
                ANY,
                0,
                "longer than allowed (offset: 7, remaining: \" and\")",
            ),
            (
                SYMBOL,
                3,
                6,
                "more nodes than allowed (offset: 9, remaining: \"EA\")",
            ),
            (
                "?x@@3L",
                4,
                0,
                "unknown primitive type (offset: 6, remaining: \"\")",
            ),
        ];
        for (symbol, nodes, bytes, wanted) in rows {
            let error = demangle_within(rt.alloc(), symbol, DemangleFlags::llvm(), nodes, bytes)
                .err()
                .ok_or("demangled")?;
            let shown = format!(in rt.alloc(); "{error}")?;
            assert_eq!(rt; shown.as_str(), wanted);
        }
        Ok(())
    }

    /// Tests that a rejected symbol exceeds no limit, and that a limit on nodes holds for the other calls too.
    #[test]
    fn other_calls(rt: HostRuntime) -> Result<(), Fail> {
        let rejected = demangle(rt.alloc(), "?x@@3L", DemangleFlags::llvm())
            .err()
            .ok_or("read")?;
        assert_eq!(rt; rejected.limit(), None);
        assert!(rt; !rejected.is_over_limit());
        let parsed = parse_within(rt.alloc(), SYMBOL, 3).err().ok_or("parsed")?;
        assert_eq!(rt; exceeded(&parsed), Some((Limit::Nodes, 9)));
        let measured = symbol_length_within(rt.alloc(), SYMBOL, 3)
            .err()
            .ok_or("measured")?;
        assert_eq!(rt; exceeded(&measured), Some((Limit::Nodes, 9)));
        Ok(())
    }

    /// Returns a function of `parameters` parameters.
    fn function(alloc: Global, parameters: usize) -> Result<String, AllocError> {
        let mut symbol = String::from_str(alloc, "?f@@YAX")?;
        for _ in 0..parameters {
            symbol.push('H')?;
        }
        symbol.push_str("@Z")?;
        Ok(symbol)
    }

    /// Tests that reading stops near the beginning of a list of any length if 100 nodes are allowed.
    #[test]
    fn parameters(rt: HostRuntime) -> Result<(), Fail> {
        for count in [1000, 1_000_000] {
            let symbol = function(rt.alloc(), count)?;
            let error = symbol_length_within(rt.alloc(), symbol.as_str(), 100)
                .err()
                .ok_or("measured")?;
            assert_eq!(rt; error.limit(), Some(Limit::Nodes));
            assert!(rt; error.offset().is_some_and(|offset| offset < 1000));
        }
        Ok(())
    }

    /// Returns a symbol of constructors of nested templates. Each level of 23 bytes doubles the declaration.
    fn doubled(alloc: Global, levels: usize) -> Result<String, AllocError> {
        let mut symbol = String::from_str(alloc, "?x@")?;
        for _ in 0..levels {
            symbol.push_str("?1???0?$A@Va@")?;
        }
        for _ in 0..levels {
            symbol.push_str("@@@QEAA@XZ")?;
        }
        symbol.push_str("@3HA")?;
        Ok(symbol)
    }

    /// Tests that ten levels are within the default limits, with 54,224 bytes, and that the declaration is too long
    /// from eleven on.
    #[test]
    fn doubling(rt: HostRuntime) -> Result<(), Fail> {
        for levels in [1, 10, 11, 40] {
            let symbol = doubled(rt.alloc(), levels)?;
            let nodes = DEFAULT_NODE_LIMIT;
            let flags = DemangleFlags::llvm();
            match demangle_within(
                rt.alloc(),
                symbol.as_str(),
                flags,
                nodes,
                DEFAULT_BYTE_LIMIT,
            ) {
                Ok(text) => {
                    assert!(rt; levels <= 10);
                    assert!(rt; levels != 10 || text.len() == 54_224);
                }
                Err(error) => {
                    assert!(rt; levels > 10);
                    assert_eq!(rt; exceeded(&error), Some((Limit::Bytes, symbol.len())));
                }
            }
        }
        Ok(())
    }
}
