//! Whole lines at the beginning of a block of bytes.

ghost use Rattle.std.specs.Prelude.{◌≡◌, ◌≤◌, drop, length, take, vec_len};
ghost use Rattle.msvc_streams.specs.Runs.{IsLines, IsWithoutEnd};

use memchr::memrchr;

/// Returns the number of bytes of the whole lines in `block`, whose first `from` bytes have no line feed.
pub fn lines_len(block: &[u8], from: usize) -> usize
    requires bound { from ≤ length block.now }
    requires unended { IsWithoutEnd (take from block.now) }
    ensures bound { result ≤ length block.now }
    ensures lines { IsLines (take result block.now) }
    ensures unended { IsWithoutEnd (drop result block.now) }
{
    match memrchr(b'\n', &block[from..]) {
        Some(at) => from + at + 1,
        None => 0,
    }
}

/// Removes the first bytes.
pub fn drop_front(bytes: &mut Vec<u8>, count: usize)
    requires { count ≤ vec_len bytes.old }
    ensures { bytes.new.items ≡ drop count bytes.old.items }
{
    let rest = bytes.len() - count;
    bytes.copy_within(count.., 0);
    bytes.truncate(rest);
}
