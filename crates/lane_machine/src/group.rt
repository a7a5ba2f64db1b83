//! What a beat does with the next elements of a row. All sources are read before the first write.
ghost use Rattle.std.specs.Prelude.{◌≡◌, ◌+◌, ◌*◌, ◌/◌, ◌<◌, ◌≤◌, ◌^◌, ℕ, false, pos, length, take, slice_index_or, IsTrue, IsFalse, if◌then◌else◌};
ghost use Rattle.ven_base.specs.Elem.{size_of};
ghost use Rattle.spad_store.specs.Packed.{has_bit};
ghost use Rattle.spad_store.specs.Cells.{with_bytes};
ghost use Rattle.venice_isa.specs.Cell.{overwritten};
ghost use Rattle.venice_isa.specs.Element.{spelled};
ghost use Rattle.venice_isa.specs.Region.{place_in};
ghost use Rattle.venice_isa.specs.Footprint.{HasFootprint, destination};
ghost use Rattle.venice_isa.specs.Whole.{sum_of_results, spelled_sum, HasCounts};
ghost use Rattle.venice_isa.specs.Mode.{is_conditional};
ghost use Rattle.venice_isa.specs.Beat.{new_elements, vector_beat, lane_group_items, lane_group_at, sum_after};
ghost use Rattle.ven_base.specs.Store.{cells_alone};
ghost use Rattle.venice_isa.specs.declared.issue.Issue.TheVariants.{Vector};
ghost use Rattle.lane_machine.specs.Elements.{wider, sum_of_elements, HasSpelled};
ghost use Rattle.lane_machine.specs.Group.{results_from};
ghost use Rattle.lane_machine.specs.Current.{IsAt, IsPlaced, IsBounded, next_count, progress_of};

use crate::current::Current;
use crate::element::{Bytes, MOST_BYTES, number, put};
use crate::flags::{flags_for, whole_elements};
use crate::kernel::answers;
use crate::operand::load_bytes;
use spad_store::Spad;
use ven_base::{
    Elem, KnownElem, TypeI8, TypeI16, TypeI32, TypeU8, TypeU16, TypeU32, bits_of, wrap,
};
use venice_isa::VecWork;

/// Does the next beat of a work, which takes `count` elements. Gives the row's sum with their
/// results, which is 0 without accumulate.
pub(crate) fn beat(cells: &mut Spad, work: &VecWork, current: &Current, count: u32) -> i128
    requires counts { HasCounts work.now }
    requires at { IsAt work.now current.now }
    requires count { count ≡ next_count work.now current.now }
    requires inside { HasFootprint (cells_alone (length cells.old)) (Vector work.now) }
    requires small { length cells.old < 2 ^ 32 }

    ensures cells { (lanes : ℕ) → current.now.group_items ≡ lane_group_items work.now.kind lanes →
        cells.new ≡ vector_beat work.now lanes (progress_of current.now) cells.old }
    ensures sum { (lanes : ℕ) → current.now.group_items ≡ lane_group_items work.now.kind lanes →
        result ≡ (if work.now.kind.acc
        then sum_after work.now (progress_of current.now) cells.old
        (lane_group_at work.now lanes (progress_of current.now))
        else pos 0) }
    ensures bounded { IsBounded (current.now.first + count) result }
{
    let mut results = [0; MOST_BYTES];
    work_out(cells, work, current, count, &mut results);
    if work.kind.acc {
        let sum = current.sum + i128::from(sum_of(work.kind.elem, &results, count));
        if work.vl - current.first == count {
            put_sum(cells, work, current, sum);
        }
        return sum;
    }
    if work.kind.op.is_conditional() {
        move_flagged(cells, work, current, count, &results);
    } else {
        put_all(cells, work, current, count, &results);
    }
    0
}

/// Works out the results for the next `count` elements, from the cells as they are.
fn work_out(cells: &Spad, work: &VecWork, current: &Current, count: u32, results: &mut Bytes)
    requires placed { IsPlaced work.now current.now }
    requires in_row { current.now.first + count ≤ work.now.vl }
    requires some { 0 < count }
    requires few { count * wider work.now.kind.elem work.now.kind.from ≤ 16 }
    requires inside { HasFootprint (cells_alone (length cells.now)) (Vector work.now) }
    requires small { length cells.now < 2 ^ 32 }
    ensures { HasSpelled work.now.kind.elem count
        (results_from work.now cells.now current.now.row current.now.first) results.new }
{
    let kind = work.kind;
    let (mut a, mut b) = ([0; MOST_BYTES], [0; MOST_BYTES]);
    current.a.load(cells, kind.from, count, &mut a);
    let is_used = kind.op.uses_b();
    current.b.load_if(is_used, cells, kind.elem, count, &mut b);
    answers(kind, &a, &b, results);
}

/// The sum of so many first elements of a group.
fn sum_of(elem: Elem, results: &Bytes, count: u32) -> i64
    requires { count * size_of elem ≤ 16 }
    ensures value { result ≡ sum_of_elements elem results.now count }
    ensures bounded { IsBounded count result }
{
    match elem {
        Elem::U8 => sum_in::<TypeU8>(results, count),
        Elem::I8 => sum_in::<TypeI8>(results, count),
        Elem::U16 => sum_in::<TypeU16>(results, count),
        Elem::I16 => sum_in::<TypeI16>(results, count),
        Elem::U32 => sum_in::<TypeU32>(results, count),
        Elem::I32 => sum_in::<TypeI32>(results, count),
    }
}

/// The same of one type.
fn sum_in<E: KnownElem>(results: &Bytes, count: u32) -> i64
    requires { count * size_of E.ELEM ≤ 16 }
    ensures value { result ≡ sum_of_elements E.ELEM results.now count }
    ensures bounded { IsBounded count result }
{
    let mut sum = 0;
    for k in 0..count {
        sum += number(E::ELEM, results, k);
    }
    sum
}

/// Writes results, with their flags, into the next elements of the destination.
fn put_all(cells: &mut Spad, work: &VecWork, current: &Current, count: u32, results: &Bytes)
    requires no_sum { IsFalse work.now.kind.acc }
    requires plain { IsFalse (is_conditional work.now.kind.op) }
    requires placed { IsPlaced work.now current.now }
    requires in_row { current.now.first + count ≤ work.now.vl }
    requires some { 0 < count }
    requires few { count * wider work.now.kind.elem work.now.kind.from ≤ 16 }
    requires inside { HasFootprint (cells_alone (length cells.old)) (Vector work.now) }
    requires small { length cells.old < 2 ^ 32 }
    requires results { HasSpelled work.now.kind.elem count
        (results_from work.now cells.old current.now.row current.now.first) results.now }
    ensures { cells.new ≡ overwritten cells.old (place_in (destination work.now) current.now.row current.now.first)
        (new_elements work.now cells.old current.now.row current.now.first count) }
{
    let kind = work.kind;
    let place = current.dst.next_place as u32;
    let bytes = count * kind.elem.size();
    put_first(cells, place, results, bytes);
    if kind.op.is_comparison() {
        cells.put_flags(place, bytes, flags_for(kind, results));
    }
}

/// Puts the first bytes of a group into cells, and clears their flags. A whole group is copied by a
/// move of its size.
#[inline(always)]
fn put_first(cells: &mut Spad, place: u32, bytes: &Bytes, count: u32)
    requires few { count ≤ 16 }
    requires inside { place + count ≤ length cells.old }
    ensures cells { cells.new ≡ with_bytes cells.old place (take count bytes.now) }
    ensures same_length { length cells.new ≡ length cells.old }
{
    if count as usize == MOST_BYTES {
        cells.put_bytes(place, bytes);
    } else if count == 4 {
        cells.put_bytes(place, &bytes[..4]);
    } else if count == 8 {
        cells.put_bytes(place, &bytes[..8]);
    } else {
        cells.put_bytes(place, &bytes[..count as usize]);
    }
}

/// Moves A's elements, which `results` has, to those of the next elements where the flag of B's
/// first byte is set; the others stay as they are.
fn move_flagged(cells: &mut Spad, work: &VecWork, current: &Current, count: u32, results: &Bytes)
    requires no_sum { IsFalse work.now.kind.acc }
    requires conditional { IsTrue (is_conditional work.now.kind.op) }
    requires placed { IsPlaced work.now current.now }
    requires in_row { current.now.first + count ≤ work.now.vl }
    requires some { 0 < count }
    requires few { count * wider work.now.kind.elem work.now.kind.from ≤ 16 }
    requires inside { HasFootprint (cells_alone (length cells.old)) (Vector work.now) }
    requires small { length cells.old < 2 ^ 32 }
    requires results { HasSpelled work.now.kind.elem count
        (results_from work.now cells.old current.now.row current.now.first) results.now }
    ensures { cells.new ≡ overwritten cells.old (place_in (destination work.now) current.now.row current.now.first)
        (new_elements work.now cells.old current.now.row current.now.first count) }
{
    let elem = work.kind.elem;
    let place = current.dst.next_place as u32;
    let bytes = count * elem.size();
    let moved = whole_elements(elem, current.b.flags(cells, elem, count));
    let flags = cells.get_flags(place, bytes);
    let mut merged = [0; MOST_BYTES];
    load_bytes(cells, place, bytes, &mut merged);
    merge(moved, results, &mut merged);
    put_first(cells, place, &merged, bytes);
    cells.put_flags(place, bytes, flags & !moved);
}

/// Puts new bytes where their bits are set, and leaves the others.
fn merge(moved: u64, new: &Bytes, bytes: &mut Bytes)
    ensures long { length bytes.new ≡ 16 }
    ensures each { (j : ℕ) → j < 16 → slice_index_or bytes.new j 0
        ≡ (if has_bit moved j then slice_index_or new.now j 0 else slice_index_or bytes.old j 0) }
{
    for j in 0..MOST_BYTES {
        let old = bytes[j];
        bytes[j] = if (moved >> j) & 1 == 1 { new[j] } else { old };
    }
}

/// Writes a row's sum, which wraps and clears its flags, into the row's element.
fn put_sum(cells: &mut Spad, work: &VecWork, current: &Current, sum: i128)
    requires counts { HasCounts work.now }
    requires with_sum { IsTrue work.now.kind.acc }
    requires placed { IsPlaced work.now current.now }
    requires inside { HasFootprint (cells_alone (length cells.old)) (Vector work.now) }
    requires small { length cells.old < 2 ^ 32 }
    ensures { cells.new ≡ overwritten cells.old (place_in (destination work.now) current.now.row 0)
        (spelled_sum work.now sum) }
{
    let elem = work.kind.elem;
    put_number(cells, elem, current.dst.row_place as u32, wrap(elem, sum));
}

/// Puts the bytes of a number into cells, and clears their flags.
fn put_number(cells: &mut Spad, elem: Elem, place: u32, n: i64)
    requires { place + size_of elem ≤ length cells.old }
    ensures { cells.new ≡ overwritten cells.old place (spelled elem n false) }
{
    let mut bytes = [0; MOST_BYTES];
    put(elem, &mut bytes, 0, bits_of(elem, n));
    put_first(cells, place, &bytes, elem.size());
}
