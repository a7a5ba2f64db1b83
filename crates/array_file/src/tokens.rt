//! The tokens of a text, past line ends.

ghost use Rattle.std.specs.Prelude.{◌≡◌, ◌≢◌, ◌<◌, ◌≤◌, ◌^◌, length, IfOk};
ghost use Rattle.array_file.specs.Steps.{StandsFrom};
ghost use Rattle.array_file.specs.Words.{passes};

use ven_io::{Token, TokenFault, TokenKind, next};

/// Whether the kind is passed over: a line end.
fn passes(kind: TokenKind) -> bool
    ensures { result ≡ passes kind }
{
    match kind {
        TokenKind::Line => true,
        _ => false,
    }
}

/// The next token at or after `from`, past blanks, comments and line ends; the text's end is one.
pub fn next_kept(text: &[u8], from: u32) -> Result<Token, TokenFault>
    requires place { from ≤ length text.now }
    requires short { length text.now < 2 ^ 31 }
    ensures next { StandsFrom text.now from result }
    ensures in_text { IfOk result (λ token. token.end ≤ length text.now) }
    ensures some { IfOk result (λ token. token.kind ≢ TokenKind.End → token.start < token.end) }
    ensures after { IfOk result (λ token. from ≤ token.start) }
{
    let mut place = from;
    loop {
        match next(text, place) {
            Ok(token) => {
                if passes(token.kind) {
                    place = token.end;
                } else {
                    return Ok(token);
                }
            }
            Err(fault) => return Err(fault),
        }
    }
}
