//! The allocator that fails for good: which requests fail, and that it remembers.

#[cfg(test)]
mod tests {
    use msvc_demangler::Fuse;

    /// More bytes than any machine has.
    const TOO_MANY: usize = 1 << 62;

    /// Requests in their order, and whether each fails.
    const REQUESTS: [(usize, bool); 3] = [(1, false), (TOO_MANY, true), (1, true)];

    #[test]
    fn fails_for_good(rt: HostRuntime) {
        let fuse = Fuse::new(rt.alloc());
        for (bytes, fails) in REQUESTS {
            assert_eq!(rt; Vec::<u8, _>::with_capacity(&fuse, bytes).is_err(), fails);
            assert_eq!(rt; fuse.has_failed(), fails);
        }
    }
}
