//! What holds of blocks, expressions and programs, each as a function without arguments whose contract is the law.
ghost use Rattle.host_programs.specs.BlockLaws.{BlocksRun};
ghost use Rattle.host_programs.specs.ExprLaws.{ExprsRun};
ghost use Rattle.host_programs.specs.ProgramLaws.{ProgramsCompile};
ghost use Rattle.host_programs.specs.Coded.{ProgramsAreCode};

/// A sound block passes on its issues in its steps, wherever it stands and whatever the host holds.
pub fn block_laws()
    ensures { BlocksRun }
{}

/// The code of an expression puts its number into a register, and where it fits that is its value.
pub fn expr_laws()
    ensures { ExprsRun }
{}

/// The code of a program passes on the program's list in the program's steps.
pub fn program_laws()
    ensures { ProgramsCompile }
{}

/// A program that has registers and places enough is code, with a halt behind it, and has the program's list as its
/// issue list.
pub fn code_laws()
    ensures { ProgramsAreCode }
{}
