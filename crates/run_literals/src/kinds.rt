// What the number of a kind says of a line's gates.
ghost use Rattle.std.specs.Prelude.{◌≡◌};
ghost use Rattle.trail.specs.Kinds.{kind_of, uses_second};
ghost use Rattle.clause_lists.specs.Kinds.{has_carries};

// Whether a line of the kind has a second operand.
pub fn uses_second(kind: u32) -> bool
    ensures { result ≡ uses_second (kind_of kind) }
{
    match kind {
        1 | 5 | 9 => true,
        _ => false,
    }
}

// Whether it has carries, or borrows in their place.
pub fn has_carries(kind: u32) -> bool
    ensures { result ≡ has_carries (kind_of kind) }
{
    match kind {
        5..=6 | 9 => true,
        _ => false,
    }
}
