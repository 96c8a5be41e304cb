//! Texts cut at a separator.
ghost use Rattle.std.specs.Prelude.{◌≡◌, ◌==◌, ◌∷◌};
ghost use Rattle.std.specs.List.{position};
ghost use Rattle.std.specs.Option.{option_map};
ghost use Rattle.program_script.specs.Grammar.{parted_by};
ghost use Rattle.program_script.specs.Reading.{parts_left, only, first_two, first_three, first_four};

fn place_of(separator: u8, bytes: &[u8]) -> Option<usize>
    ensures { result ≡ position (λ b. b == separator) bytes.now }
{
    bytes.iter().position(|b| *b == separator)
}

/// The bytes before the first separator, and those behind it, where there is one.
pub fn cut_at(separator: u8, bytes: &[u8]) -> (&[u8], Option<&[u8]>)
    ensures { parted_by separator bytes.now ≡ result.0.now ∷ parts_left separator (option_map (λ r. r.now) result.1) }
{
    match place_of(separator, bytes) {
        None => (bytes, None),
        Some(i) => (&bytes[..i], Some(&bytes[i + 1..])),
    }
}

/// The one part that is left.
pub fn only_part(separator: u8, rest: Option<&[u8]>) -> Option<&[u8]>
    ensures { option_map (λ w. w.now) result ≡ only (parts_left separator (option_map (λ r. r.now) rest.entry)) }
{
    match cut_at(separator, rest?) {
        (part, None) => Some(part),
        (_, Some(_)) => None,
    }
}

/// The two parts that are left.
pub fn two_parts(separator: u8, rest: Option<&[u8]>) -> Option<(&[u8], &[u8])>
    ensures { option_map (λ w. (w.0.now, w.1.now)) result
        ≡ first_two (parts_left separator (option_map (λ r. r.now) rest.entry)) }
{
    let (first, rest) = cut_at(separator, rest?);
    let second = only_part(separator, rest)?;
    Some((first, second))
}

/// The three parts that are left.
pub fn three_parts(separator: u8, rest: Option<&[u8]>) -> Option<(&[u8], &[u8], &[u8])>
    ensures { option_map (λ w. (w.0.now, w.1.now, w.2.now)) result
        ≡ first_three (parts_left separator (option_map (λ r. r.now) rest.entry)) }
{
    let (first, rest) = cut_at(separator, rest?);
    let (second, third) = two_parts(separator, rest)?;
    Some((first, second, third))
}

/// The four parts that are left.
pub fn four_parts(separator: u8, rest: Option<&[u8]>) -> Option<(&[u8], &[u8], &[u8], &[u8])>
    ensures { option_map (λ w. (w.0.now, w.1.now, w.2.now, w.3.now)) result
        ≡ first_four (parts_left separator (option_map (λ r. r.now) rest.entry)) }
{
    let (first, rest) = cut_at(separator, rest?);
    let (second, third, fourth) = three_parts(separator, rest)?;
    Some((first, second, third, fourth))
}
