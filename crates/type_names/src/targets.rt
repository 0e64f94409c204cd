//! What paths in patterns find.
ghost use Rattle.std.specs.Prelude.{◌≡◌};
ghost use Rattle.type_names.specs.Finding.{or_else, prelude_variant, same_owner};
ghost use Rattle.type_names.specs.FindingViews.{target_view, with_variant};
ghost use Rattle.type_names.specs.Views.{owner_view};

use crate::meanings::Owner;

/// What a path finds: nothing, two different variants, the struct that the item with this number declares, or the
/// variant with this number of an enum. Items and variants count from 0.
#[derive(Clone, Copy, Debug, PartialEq, Eq)]
pub enum Target {
    Nothing,
    Twice,
    Struct(u64),
    Variant { owner: Owner, variant: usize },
}

// The first of the two that is something.
pub(crate) fn or_else(first: Target, other: Target) -> Target
    ensures { target_view result ≡ or_else (target_view first) (target_view other) }
{
    match first {
        Target::Nothing => other,
        Target::Twice => first,
        Target::Struct(_) => first,
        Target::Variant { .. } => first,
    }
}

// What was found, with a further variant of the name: two different ones are twice.
pub(crate) fn with_variant(found: Target, owner: Owner, variant: usize) -> Target
    ensures { target_view result ≡ with_variant (target_view found) (owner_view owner) variant }
{
    match found {
        Target::Nothing => Target::Variant { owner, variant },
        Target::Twice => Target::Twice,
        Target::Struct(_) => Target::Twice,
        Target::Variant {
            owner: before,
            variant: number,
        } => {
            if same_owner(before, owner) && number == variant {
                found
            } else {
                Target::Twice
            }
        }
    }
}

// Whether the two are one enum.
fn same_owner(first: Owner, other: Owner) -> bool
    ensures { result ≡ same_owner (owner_view first) (owner_view other) }
{
    match (first, other) {
        (Owner::Item(i), Owner::Item(j)) => i == j,
        (Owner::Option, Owner::Option) => true,
        (Owner::Result, Owner::Result) => true,
        _ => false,
    }
}

// The variant of this name that every file has.
pub(crate) fn prelude_variant(name: &str) -> Target
    ensures { target_view result ≡ prelude_variant name.now }
{
    match name {
        "Some" => Target::Variant {
            owner: Owner::Option,
            variant: 1,
        },
        "None" => Target::Variant {
            owner: Owner::Option,
            variant: 0,
        },
        "Ok" => Target::Variant {
            owner: Owner::Result,
            variant: 0,
        },
        "Err" => Target::Variant {
            owner: Owner::Result,
            variant: 1,
        },
        _ => Target::Nothing,
    }
}
