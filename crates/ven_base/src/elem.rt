//! The element types (docs/LANGUAGE.md, "Element types").
ghost use Rattle.std.specs.Prelude.{◌≡◌, ◌↔◌, ◌+ℤ◌, pos, IsTrue};

/// The type of an array's elements: unsigned or signed whole numbers of 8, 16 or 32 bits.
#[derive(Clone, Copy, Debug, PartialEq, Eq, Hash)]
pub enum Elem {
    /// 0 to 255.
    U8,
    /// -128 to 127.
    I8,
    /// 0 to 65,535.
    U16,
    /// -32,768 to 32,767.
    I16,
    /// 0 to 4,294,967,295.
    U32,
    /// -2,147,483,648 to 2,147,483,647.
    I32,
}

impl Elem {
    ghost use Rattle.ven_base.specs.Elem.{size_of, width_of, modulus_of, least_of, IsElement};
    ghost use Rattle.ven_base.specs.ElemWord.{elem_word, elem_named};

    /// The size of an element in bytes: 1, 2 or 4.
    pub fn size(self) -> u32
        ensures { result ≡ size_of self }
    {
        match self {
            Elem::U8 | Elem::I8 => 1,
            Elem::U16 | Elem::I16 => 2,
            Elem::U32 | Elem::I32 => 4,
        }
    }

    /// The width of an element in bits: 8, 16 or 32.
    pub fn width(self) -> u32
        ensures { result ≡ width_of self }
    {
        8 * self.size()
    }

    /// How many numbers the type has: 2 to its width.
    pub fn modulus(self) -> i64
        ensures { result ≡ pos (modulus_of self) }
    {
        match self {
            Elem::U8 | Elem::I8 => 0x100,
            Elem::U16 | Elem::I16 => 0x1_0000,
            Elem::U32 | Elem::I32 => 0x1_0000_0000,
        }
    }

    /// The least number of the type: 0, or half the modulus below 0.
    pub fn least(self) -> i64
        ensures { result ≡ least_of self }
    {
        match self {
            Elem::U8 | Elem::U16 | Elem::U32 => 0,
            Elem::I8 => -0x80,
            Elem::I16 => -0x8000,
            Elem::I32 => -0x8000_0000,
        }
    }

    /// One more than the greatest number of the type.
    pub fn end(self) -> i64
        ensures { result ≡ least_of self +ℤ pos (modulus_of self) }
    {
        match self {
            Elem::U8 => 0x100,
            Elem::I8 => 0x80,
            Elem::U16 => 0x1_0000,
            Elem::I16 => 0x8000,
            Elem::U32 => 0x1_0000_0000,
            Elem::I32 => 0x8000_0000,
        }
    }

    /// Whether `n` is a number of the type.
    pub fn contains(self, n: i64) -> bool
        ensures { IsTrue result ↔ IsElement self n }
    {
        self.least() <= n && n < self.end()
    }

    /// The type's word: `u8`, `i8` and so on.
    pub fn word(self) -> &'static [u8]
        ensures { result.now ≡ elem_word self }
    {
        match self {
            Elem::U8 => b"u8",
            Elem::I8 => b"i8",
            Elem::U16 => b"u16",
            Elem::I16 => b"i16",
            Elem::U32 => b"u32",
            Elem::I32 => b"i32",
        }
    }

    /// The type whose word these bytes are, if they are one's.
    pub fn from_word(bytes: &[u8]) -> Option<Elem>
        ensures { result ≡ elem_named bytes.now }
    {
        if bytes == Elem::U8.word() {
            Some(Elem::U8)
        } else if bytes == Elem::I8.word() {
            Some(Elem::I8)
        } else if bytes == Elem::U16.word() {
            Some(Elem::U16)
        } else if bytes == Elem::I16.word() {
            Some(Elem::I16)
        } else if bytes == Elem::U32.word() {
            Some(Elem::U32)
        } else if bytes == Elem::I32.word() {
            Some(Elem::I32)
        } else {
            None
        }
    }
}
