//! Element types that are known where the code is compiled.

use crate::Elem;

/// An element type that is known where the code is compiled, so that a loop over elements is compiled for it.
pub trait KnownElem {
    ghost use Rattle.ven_base.specs.declared.elem.Elem.{Elem as TheElem};

    ghost ELEM: { TheElem };

    /// The type.
    const ELEM: Elem;
}

/// The type `u8`.
pub struct TypeU8;

/// The type `i8`.
pub struct TypeI8;

/// The type `u16`.
pub struct TypeU16;

/// The type `i16`.
pub struct TypeI16;

/// The type `u32`.
pub struct TypeU32;

/// The type `i32`.
pub struct TypeI32;

impl KnownElem for TypeU8 {
    ghost use Rattle.ven_base.specs.declared.elem.Elem.TheVariants.{U8};

    ghost ELEM = { U8 };

    const ELEM: Elem = Elem::U8;
}

impl KnownElem for TypeI8 {
    ghost use Rattle.ven_base.specs.declared.elem.Elem.TheVariants.{I8};

    ghost ELEM = { I8 };

    const ELEM: Elem = Elem::I8;
}

impl KnownElem for TypeU16 {
    ghost use Rattle.ven_base.specs.declared.elem.Elem.TheVariants.{U16};

    ghost ELEM = { U16 };

    const ELEM: Elem = Elem::U16;
}

impl KnownElem for TypeI16 {
    ghost use Rattle.ven_base.specs.declared.elem.Elem.TheVariants.{I16};

    ghost ELEM = { I16 };

    const ELEM: Elem = Elem::I16;
}

impl KnownElem for TypeU32 {
    ghost use Rattle.ven_base.specs.declared.elem.Elem.TheVariants.{U32};

    ghost ELEM = { U32 };

    const ELEM: Elem = Elem::U32;
}

impl KnownElem for TypeI32 {
    ghost use Rattle.ven_base.specs.declared.elem.Elem.TheVariants.{I32};

    ghost ELEM = { I32 };

    const ELEM: Elem = Elem::I32;
}
