//! What the definitions of tokens and numbers settle, whatever the code does.

ghost use Rattle.ven_io.specs.Number.{HasOneNumber, ReadsTokens};
ghost use Rattle.ven_io.specs.Token.{HasOneNext};

/// From a place of a text on, one token is next, or one fault.
pub fn one_next()
    ensures { HasOneNext }
{}

/// A text denotes one number, or has one fault; a number token's text denotes a number, or is too large.
pub fn one_number()
    ensures one { HasOneNumber }
    ensures tokens { ReadsTokens }
{}
