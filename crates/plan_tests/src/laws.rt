//! The laws of the plan's crates, each of which is called once.
use dma_schedule::list_laws;
use dma_segments::{pass_laws, read_laws, worked_rows as piece_rows, write_laws};
use vector_codegen::{fill_laws, tile_laws, worked_rows as instruction_rows};

#[test]
fn laws_are_called() {
    read_laws();
    write_laws();
    pass_laws();
    piece_rows();
    tile_laws();
    fill_laws();
    instruction_rows();
    list_laws();
}
