//! Names of objects.

ghost use Rattle.std.specs.{Prelude.{◌≡◌, ◌∷◌, Some, None, if◌then◌else◌, ◌||◌}, List.list_all, Option.option_map};
ghost use Rattle.record_lines.specs.Names.{is_name, is_letter, is_digit};

use arrayvec::ArrayString;

/// Whether each byte is a lower-case letter or a digit.
fn are_plain(bytes: &[u8]) -> bool
    ensures { result ≡ list_all (λ b. is_letter b || is_digit b) bytes.now }
{
    bytes
        .iter()
        .all(|b| b'a' <= *b && *b <= b'z' || b'0' <= *b && *b <= b'9')
}

/// Whether the first byte and the others make a name.
fn makes_name(first: u8, others: &[u8]) -> bool
    ensures { result ≡ is_name (first ∷ others.now) }
{
    b'a' <= first && first <= b'z' && are_plain(others) && others.len() <= 15
}

/// Whether the bytes are a name: a lower-case letter, and then such letters or digits, 1 to 16 bytes.
pub fn is_name(bytes: &[u8]) -> bool
    ensures { result ≡ is_name bytes.now }
{
    match bytes.split_first() {
        Some((first, others)) => makes_name(*first, others),
        None => false,
    }
}

/// The text, if it is a name.
pub fn name_of(text: &str) -> Option<ArrayString<16>>
    ensures { option_map (λ x. x.bytes) result ≡ if is_name text.now then Some text.now else None }
{
    if !is_name(text.as_bytes()) {
        return None;
    }
    let mut name = ArrayString::new();
    name.push_str(text);
    Some(name)
}

/// The bytes as text, if they are a name.
pub fn name_in(bytes: &[u8]) -> Option<ArrayString<16>>
    ensures { option_map (λ x. x.bytes) result ≡ if is_name bytes.now then Some bytes.now else None }
{
    match std::str::from_utf8(bytes) {
        Ok(text) => name_of(text),
        Err(_) => None,
    }
}
