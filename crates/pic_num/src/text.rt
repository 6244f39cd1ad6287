//! Texts of a fixed room.

ghost use Rattle.std.specs.Prelude.{◌≡◌, List, ℕ, ◌+◌, ◌≤◌, ◌++◌, [], ◌∷◌, length};
ghost use Rattle.std.specs.Fmt.{decimal, signed_decimal};
ghost use Rattle.std.specs.Int.{w64, to_be_bytes};
ghost use Rattle.pic_num.specs.Bytes.{u32_bytes, i32_bytes, u128_bytes, i128_bytes};

use arrayvec::ArrayVec;
use std::marker::Model;

/// A text in a room of `N` bytes, so that it takes no memory. Clauses see its bytes.
#[derive(Drop)]
pub struct Text<const N: usize> {
    bytes: ArrayVec<u8, N>,
}

impl<const N: usize> Model for Text<N> {
    ghost Value = { List ℕ };

    ghost view = { λ t. t.bytes.items };
}

impl<const N: usize> Text<N> {
    /// An empty text.
    pub fn new() -> Text<N>
        ensures { result ≡ [] }
    {
        Text {
            bytes: ArrayVec::new(),
        }
    }

    /// Its bytes.
    pub fn bytes(&self) -> &[u8]
        ensures { result.now ≡ self.now }
    {
        self.bytes.as_slice()
    }

    /// Appends a piece. The room has to suffice.
    pub fn push(&mut self, piece: &[u8])
        requires { length self.old + length piece.now ≤ N }
        ensures bytes { self.new ≡ self.old ++ piece.now }
        ensures len { length self.new ≡ length self.old + length piece.now }
    {
        self.bytes.try_extend_from_slice(piece).unwrap();
    }

    /// Appends a byte.
    pub fn push_byte(&mut self, byte: u8)
        requires { length self.old + 1 ≤ N }
        ensures bytes { self.new ≡ self.old ++ byte ∷ [] }
        ensures len { length self.new ≡ length self.old + 1 }
    {
        self.push(&[byte]);
    }

    #[tactic(auto, unfolding(crate::specs::Bytes::u32_bytes))]
    /// Appends four bytes, big-endian.
    pub fn push_u32(&mut self, n: u32)
        requires { length self.old + 4 ≤ N }
        ensures bytes { self.new ≡ self.old ++ u32_bytes n }
        ensures len { length self.new ≡ length self.old + 4 }
    {
        self.push(&n.to_be_bytes());
    }

    #[tactic(auto, unfolding(crate::specs::Bytes::i32_bytes))]
    /// Appends four bytes, big-endian, in two's complement.
    pub fn push_i32(&mut self, n: i32)
        requires { length self.old + 4 ≤ N }
        ensures bytes { self.new ≡ self.old ++ i32_bytes n }
        ensures len { length self.new ≡ length self.old + 4 }
    {
        self.push(&n.to_be_bytes());
    }

    #[tactic(auto, unfolding(crate::specs::Bytes::u128_bytes))]
    /// Appends sixteen bytes, big-endian.
    pub fn push_u128(&mut self, n: u128)
        requires { length self.old + 16 ≤ N }
        ensures bytes { self.new ≡ self.old ++ u128_bytes n }
        ensures len { length self.new ≡ length self.old + 16 }
    {
        self.push_word((n >> u64::BITS) as u64);
        self.push_word((n & u64::MAX as u128) as u64);
    }

    #[tactic(auto, unfolding(crate::specs::Bytes::u128_bytes, crate::specs::Bytes::i128_bytes))]
    /// Appends sixteen bytes, big-endian, in two's complement.
    pub fn push_i128(&mut self, n: i128)
        requires { length self.old + 16 ≤ N }
        ensures bytes { self.new ≡ self.old ++ i128_bytes n }
        ensures len { length self.new ≡ length self.old + 16 }
    {
        self.push_u128(n.cast_unsigned());
    }

    // Appends a word of the machine, big-endian. As a function's argument the compiler turns it by
    // one instruction, as half of a wider number byte by byte.
    fn push_word(&mut self, word: u64)
        requires { length self.old + 8 ≤ N }
        ensures bytes { self.new ≡ self.old ++ to_be_bytes w64 word }
        ensures len { length self.new ≡ length self.old + 8 }
    {
        self.push(&word.to_be_bytes());
    }

    /// Appends the decimal digits of `n`, at most 40 of them.
    pub fn push_decimal(&mut self, n: u128)
        requires { length self.old + 40 ≤ N }
        ensures bytes { self.new ≡ self.old ++ decimal n }
        ensures len { length self.new ≤ length self.old + 40 }
    {
        let mut digits = itoa::Buffer::new();
        self.push(digits.format(n).as_bytes());
    }

    /// Appends the decimal digits of `n`, behind a sign where it is below 0: at most 40 bytes.
    pub fn push_signed(&mut self, n: i128)
        requires { length self.old + 40 ≤ N }
        ensures bytes { self.new ≡ self.old ++ signed_decimal n }
        ensures len { length self.new ≤ length self.old + 40 }
    {
        let mut digits = itoa::Buffer::new();
        self.push(digits.format(n).as_bytes());
    }
}
