//! Signs of one or two bytes.

ghost use Rattle.std.specs.Prelude.{◌≡◌, ◌+◌, ◌<◌};
ghost use Rattle.ven_io.specs.Signs.{is_single_sign, is_double_sign};

const SINGLE_SIGNS: &[u8] = b"+-*&|^~()[],;=<>:";

pub(crate) fn is_single_sign(byte: u8) -> bool
    ensures { result ≡ is_single_sign byte }
{
    SINGLE_SIGNS.contains(&byte)
}

pub(crate) fn is_double_sign(first: u8, second: u8) -> bool
    ensures { result ≡ is_double_sign first second }
{
    match second {
        b'<' => first == b'<',
        b'>' => first == b'>',
        b'=' => matches!(first, b'=' | b'!' | b'<' | b'>'),
        _ => false,
    }
}
