//! Assembler texts: `venice_asm`.

use venice_asm::{canonical_texts, one_answer, one_image};

#[test]
fn laws_are_called() {
    canonical_texts();
    one_answer();
    one_image();
}
