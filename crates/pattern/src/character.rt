// What a byte may do in a pattern, by the character it is.
ghost use Rattle.std.specs.Prelude.{◌≡◌};
ghost use Rattle.notation.specs.Characters.{escapable, class_kind, kind_is_itself};

// The twelve that do something outside a class, and the two more that do something inside one.
pub(crate) fn is_escapable(byte: u8) -> bool
    ensures value { result ≡ escapable byte }
{
    matches!(
        byte as char,
        '|' | '*' | '+' | '?' | '(' | ')' | '[' | ']' | '{' | '}' | '.' | '\\' | '-' | '^'
    )
}

// Inside a class five bytes do something; every other one stands for itself.
pub(crate) fn is_itself(byte: u8) -> bool
    ensures value { result ≡ kind_is_itself (class_kind byte) }
{
    !matches!(byte as char, '[' | ']' | '\\' | '-' | '^')
}
