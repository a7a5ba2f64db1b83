//! The buffers of a tile by number (docs/COMPILER.md, "Instructions of a tile").
use buffer_lifetimes::Operand;
use dma_segments::word_of;

/// Where an operand's values are.
#[derive(Clone, Copy)]
pub enum Source {
    /// In the buffer with this number.
    Buffer(u32),
    /// They are this number.
    Scalar(i64),
}

/// The elements of a buffer of `room` bytes: `rows` rows of `cols` elements that follow one another without gaps.
#[derive(Clone, Copy)]
pub struct Shape {
    pub room: u32,
    pub rows: u32,
    pub cols: u32,
}

/// The buffers of a pass, numbered from 0: two halves for each leaf, the slots, two output halves and, in a reduction,
/// the partial result; with the halves that the tile works on.
#[derive(Clone, Copy)]
pub struct Buffers {
    pub leaves: u32,
    pub slots: u32,
    pub in_half: u32,
    pub out_half: u32,
    pub has_partial: bool,
}

impl Source {
    ghost use Rattle.std.specs.Prelude.{◌≡◌};
    ghost use Rattle.vector_codegen.specs.Work.{parameter_of, is_scalar};
    ghost use Rattle.vector_codegen.specs.Fit.{buffer_count, FitsSource};

    /// Whether the values are one number.
    pub fn is_scalar(self) -> bool
        ensures { result ≡ is_scalar self }
    {
        matches!(self, Source::Scalar(_))
    }

    /// The parameter of an instruction that says where the values are: their first cell, or the number's low 32 bits.
    pub fn parameter(self, room: u32) -> u32
        requires { FitsSource room self }
        ensures { result ≡ parameter_of room self }
    {
        match self {
            Source::Buffer(buffer) => buffer * room,
            Source::Scalar(n) => word_of(n),
        }
    }
}

impl Shape {
    ghost use Rattle.std.specs.Prelude.{◌≡◌, ◌≤◌, ◌*◌};
    ghost use Rattle.ven_base.specs.Extent.{element_limit};
    ghost use Rattle.vector_codegen.specs.Work.{flat, column_of};

    /// All elements as one row.
    pub fn flat(self) -> Shape
        requires { self.rows * self.cols ≤ element_limit }
        ensures { result ≡ flat self }
    {
        Shape {
            room: self.room,
            rows: 1,
            cols: self.rows * self.cols,
        }
    }

    /// A row of one element for each row.
    pub fn column(self) -> Shape
        ensures { result ≡ column_of self }
    {
        Shape {
            room: self.room,
            rows: 1,
            cols: self.rows,
        }
    }
}

impl Buffers {
    ghost use Rattle.std.specs.Prelude.{◌≡◌, ◌<◌, ◌^◌};
    ghost use Rattle.vector_codegen.specs.Work.{slot_buffer, out_buffer, partial_buffer, source_of};
    ghost use Rattle.vector_codegen.specs.Fit.{buffer_count, IsArgOf};

    /// The number of a slot's buffer.
    pub fn slot(self, slot: u32) -> u32
        requires few { buffer_count self < 2 ^ 32 }
        requires within { slot < self.slots }
        ensures { result ≡ slot_buffer self slot }
    {
        self.leaves * 2 + slot
    }

    /// The number of the output half.
    pub fn output(self) -> u32
        requires few { buffer_count self < 2 ^ 32 }
        requires half { self.out_half < 2 }
        ensures { result ≡ out_buffer self }
    {
        self.leaves * 2 + self.slots + self.out_half
    }

    /// The number of the partial result's buffer.
    pub fn partial(self) -> u32
        requires few { buffer_count self < 2 ^ 32 }
        ensures { result ≡ partial_buffer self }
    {
        self.leaves * 2 + self.slots + 2
    }

    /// Where an argument's values are.
    pub fn source_of(self, arg: Operand) -> Source
        requires few { buffer_count self < 2 ^ 32 }
        requires half { self.in_half < 2 }
        requires arg { IsArgOf self arg }
        ensures { result ≡ source_of self arg }
    {
        match arg {
            Operand::Leaf(number) => Source::Buffer(number * 2 + self.in_half),
            Operand::Literal(n) => Source::Scalar(n),
            Operand::Slot(slot) => Source::Buffer(self.slot(slot)),
        }
    }
}
