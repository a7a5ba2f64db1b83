//! What the definitions of the grammar settle, whatever the code does.

ghost use Rattle.array_syntax.specs.Laws.{HasOneReading, HasOneProgram};

/// Tokens are one list of statements at most, and a text denotes one program at most.
pub fn one_reading()
    ensures tokens { HasOneReading }
    ensures texts { HasOneProgram }
{}
