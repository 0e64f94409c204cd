// The findings in the order of their places.
ghost use Rattle.std.specs.Prelude.{◌≡◌, IfOk, map};
ghost use Rattle.explain_text.specs.Findings.{finding_view};
ghost use Rattle.explain_text.specs.Order.{start_of, place_of, in_file_order};

use crate::findings::Finding;
use explain_places::Place;
use std::alloc::AllocError;

// The byte with which a place begins, or the file's begin where there is none.
pub(crate) fn start_of(place: Place) -> usize
    ensures { result ≡ start_of place }
{
    match place {
        Place::There(span) => span.from,
        Place::Nowhere | Place::Lost => 0,
    }
}

impl<'r, 'a> Finding<'r, 'a> {
    // Where it stands in the order.
    fn start(&self) -> usize
        ensures { result ≡ place_of (finding_view self.now) }
    {
        start_of(self.place)
    }
}

// The findings in the order of their places; those of one place stay in their order.
pub(crate) fn in_file_order<'r, 'a>(
    mut found: Vec<Finding<'r, 'a>>,
) -> Result<Vec<Finding<'r, 'a>>, AllocError>
    ensures { IfOk result (λ sorted. map finding_view sorted.items ≡ in_file_order (map finding_view found.entry.items)) }
{
    found.sort_by_key(|finding| finding.start())?;
    Ok(found)
}
