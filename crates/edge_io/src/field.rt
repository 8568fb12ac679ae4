ghost use Rattle.std.specs.Prelude.{◌≡◌, option_map, position};
ghost use Rattle.edge_io.specs.Fields as fields;

/// The place of the first space.
fn first_space(bytes: &[u8]) -> Option<usize>
    ensures { result ≡ position fields.is_space bytes.now }
{
    bytes.iter().position(|b| *b == b' ')
}

/// What is before the first space, and the rest, which begins with that space.
pub fn cut(bytes: &[u8]) -> (&[u8], &[u8])
    ensures { (result.0.now, result.1.now) ≡ fields.cut bytes.now }
{
    let before = first_space(bytes).unwrap_or(bytes.len());
    bytes.split_at(before)
}

/// The field after a space at the front, and the rest.
pub fn field_at(rest: &[u8]) -> Option<(&[u8], &[u8])>
    ensures { option_map (λ f. (f.0.now, f.1.now)) result ≡ fields.field_at rest.now }
{
    match rest {
        [b' ', field @ ..] => Some(cut(field)),
        _ => None,
    }
}
