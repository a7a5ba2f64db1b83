//! The rules of single nodes, whose operands are checked (docs/LANGUAGE.md, "Checking").

ghost use Rattle.std.specs.Prelude.{◌≡◌, ◌≤◌, length, unsigned_abs};
ghost use Rattle.array_syntax.specs.Limits.{IsNumber, most_statements};
ghost use Rattle.ven_base.specs.Place.{IsMove};
ghost use Rattle.ven_base.specs.declared.mapping.Mapping.TheVariants as maps;
ghost use Rattle.shape_check.specs.Typed.{node_of};
ghost use Rattle.shape_check.specs.Typing.{section_of as section_map, stretch_of as stretch_map};
ghost use Rattle.shape_check.specs.Judge.{Answers, operand_of, on_name, on_two, on_select, on_shift, on_section, on_stretch, fits, is_extent};
ghost use Rattle.shape_check.specs.Numbers.{AreCuts, AreRepeats};

use crate::names::Names;
use crate::operand::{Operand, agree, is_in, type_beside};
use crate::{ArrayType, CheckFault, Typed, TypedKind, build};
use std::alloc::Global;
use ven_base::{Mapping, Name, Op2, Shape};

/// The name at `at`, which an earlier statement must declare.
pub fn name(names: &Names, at: u32, name: &Name) -> Result<Operand, CheckFault>
    requires { length names.now ≤ most_statements }
    ensures { Answers operand_of (on_name names.now at name.now) result }
{
    match names.find(name) {
        None => Err(CheckFault::Unknown { at }),
        Some((k, ArrayType { elem, shape })) => Ok(Operand::Array(Typed {
            kind: TypedKind::Name(k),
            elem,
            shape,
        })),
    }
}

/// The operation at `at` on two operands.
pub fn two(
    alloc: Global,
    at: u32,
    op: Op2,
    left: Operand,
    right: Operand,
) -> Result<Operand, CheckFault>
    ensures { Answers operand_of (on_two at op (operand_of left) (operand_of right)) result }
{
    let array_type = type_beside(&left, &right)?;
    let both = agree(at, array_type, left, right)?;
    Ok(Operand::Array(build::two(alloc, op, array_type, both)?))
}

/// The choice at `at` by a condition.
pub fn select(
    alloc: Global,
    at: u32,
    condition: Operand,
    chosen: Operand,
    other: Operand,
) -> Result<Operand, CheckFault>
    ensures { Answers operand_of (on_select at (operand_of condition) (operand_of chosen) (operand_of other)) result }
{
    let condition = condition.lone()?;
    let both = agree(at, condition.array_type(), chosen, other)?;
    Ok(Operand::Array(build::select(alloc, condition, both)?))
}

/// The shift by so many rows and columns, with a fill that stands at `fill_at`.
#[tactic(auto, using(crate::proofs::Plain::elem_with))]
pub fn shift(
    alloc: Global,
    of: Typed,
    dr: i64,
    dc: i64,
    fill: i64,
    fill_at: u32,
) -> Result<Operand, CheckFault>
    requires rows { IsMove dr }
    requires cols { IsMove dc }
    ensures { Answers operand_of (on_shift dr dc fill fill_at (node_of of)) result }
{
    if !is_in(of.elem, fill) {
        return Err(CheckFault::LiteralRange { at: fill_at });
    }
    Ok(Operand::Array(build::map(alloc, Mapping::Shift { dr, dc, fill }, of)?))
}

/// The section at `at`.
pub fn section(alloc: Global, at: u32, mapping: Mapping, of: Typed) -> Result<Operand, CheckFault>
    ensures { Answers operand_of (on_section at mapping (node_of of)) result }
{
    if !fits(mapping, of.shape) {
        return Err(CheckFault::BadSection { at });
    }
    Ok(Operand::Array(build::map(alloc, mapping, of)?))
}

/// The stretch at `at`.
pub fn stretch(alloc: Global, at: u32, mapping: Mapping, of: Typed) -> Result<Operand, CheckFault>
    ensures { Answers operand_of (on_stretch at mapping (node_of of)) result }
{
    if !fits(mapping, of.shape) {
        return Err(CheckFault::BadStretch { at });
    }
    Ok(Operand::Array(build::map(alloc, mapping, of)?))
}

/// Whether the mapping may be taken of an array of this shape.
fn fits(mapping: Mapping, of: Shape) -> bool
    ensures { result ≡ fits mapping of }
{
    mapping.fits(of)
}

/// The section that these numbers say.
pub fn section_of(r0: i64, nr: i64, sr: i64, c0: i64, nc: i64, sc: i64) -> Mapping
    requires { AreCuts r0 nr sr c0 nc sc }
    ensures { result ≡ section_map r0 nr sr c0 nc sc }
{
    Mapping::Section {
        r0: unsigned(r0),
        nr: unsigned(nr),
        sr: unsigned(sr),
        c0: unsigned(c0),
        nc: unsigned(nc),
        sc: unsigned(sc),
    }
}

/// The stretch that these numbers say.
pub fn stretch_of(kr: i64, kc: i64) -> Mapping
    requires { AreRepeats kr kc }
    ensures { result ≡ stretch_map kr kc }
{
    Mapping::Stretch {
        kr: unsigned(kr),
        kc: unsigned(kc),
    }
}

/// A number that is written without a sign.
pub fn unsigned(n: i64) -> u32
    requires { IsNumber n }
    ensures { result ≡ unsigned_abs n }
{
    n as u32
}
