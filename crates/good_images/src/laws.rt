//! The laws of good images. A caller of the function may use them.

ghost use Rattle.good_images.specs.Laws.{TheyAreImages, TheyAreGood, ListsLeaveOutputs, TablesFit, FittingArraysAreInputs, GoodRunsHalt};

use dma_schedule::list_laws;
use expr_split::{size_laws, split_laws, table_laws};
use overlap_law::laws::{finishing, no_hazard, same_steps};

/// The image of a split and of code for it is an image, and a good one; done one after another its list leaves the
/// outputs; and a run of it isn't stopped.
pub fn good_laws()
    ensures images { TheyAreImages }
    ensures good { TheyAreGood }
    ensures leave { ListsLeaveOutputs }
    ensures halt { GoodRunsHalt }
{
    split_laws();
    size_laws();
    table_laws();
    list_laws();
    finishing();
    no_hazard();
    same_steps();
}

/// Arrays that fit a program's inputs are inputs of the program, and fit every table that has these.
pub fn table_fits()
    ensures tables { TablesFit }
    ensures inputs { FittingArraysAreInputs }
{}
