//! The functions that carry the laws of the language's crates.

#[test]
fn laws_are_called() {
    ven_base::wrapping_laws();
    ven_base::operation_laws();
    ven_base::reduction_laws();
    ven_base::place_laws();
    ven_base::mapping_laws();
    ven_base::array_laws();
    ven_io::one_next();
    ven_io::one_number();
    array_syntax::one_reading();
    shape_check::meaning_laws();
    shape_check::name_laws();
    shape_check::check_laws();
    array_file::one_reading();
    array_file::large_numbers();
}
