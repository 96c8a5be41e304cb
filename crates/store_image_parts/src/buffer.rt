// Bytes that are filled from the front, with zeros behind them.
ghost use Rattle.std.specs.Prelude.{◌≡◌, ◌≤◌, ◌+◌, ◌-◌, ◌++◌, [], length};
ghost use Rattle.store_image_parts.specs.Spelling.{zeros, filled};

use std::marker::Model;

// The first bytes of `N`, of which the others are zero.
#[derive(Drop)]
pub(crate) struct Buffer<const N: usize> {
    bytes: [u8; N],
    len: usize,
}

impl<const N: usize> Model for Buffer<N> {
    ghost use Rattle.std.specs.Prelude.{◌≡◌, ◌≤◌, ◌-◌, ℕ, List, length, take, drop};
    ghost use Rattle.store_image_parts.specs.Spelling.{zeros};

    ghost Value = { List ℕ };

    ghost view = { λ b. take b.len b.bytes };

    ghost invariant = { λ b. (b.len ≤ N) × (length b.bytes ≡ N) × (drop b.len b.bytes ≡ zeros (N - b.len)) };
}

impl<const N: usize> Buffer<N> {
    pub(crate) fn new() -> Self
        ensures none { result ≡ [] }
        ensures size { length result ≡ 0 }
    {
        Buffer {
            bytes: [0; N],
            len: 0,
        }
    }

    pub(crate) fn push(&mut self, more: &[u8])
        requires { length self.old + length more.now ≤ N }
        ensures put { self.new ≡ self.old ++ more.now }
        ensures size { length self.new ≡ length self.old + length more.now }
    {
        let end = self.len + more.len();
        let bytes = &mut self.bytes[..];
        bytes[self.len..end].copy_from_slice(more);
        self.len = end;
    }

    pub(crate) fn push_zeros(&mut self, count: usize)
        requires { length self.old + count ≤ N }
        ensures put { self.new ≡ self.old ++ zeros count }
        ensures size { length self.new ≡ length self.old + count }
    {
        self.len += count;
    }

    // All bytes.
    pub(crate) fn into_bytes(self) -> [u8; N]
        ensures { result ≡ filled N self.entry }
    {
        self.bytes
    }
}
