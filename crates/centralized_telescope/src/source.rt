// What the search reads its elements from, by place: a first list, and behind its places those of a second one that are added.
ghost use Rattle.std.specs.Prelude.{◌≡◌, ℕ, ◌<◌, ◌≤◌, length, slice_index};
ghost use Rattle.centralized_telescope.specs.core.Elements.{max_elements};

use crate::lists::{AcceptedList, Element};

// For a prover over one list none is added. An element's data outlive all else that is lent here.
#[derive(Clone, Copy)]
pub struct Source<'d, 'a> {
    pub first: AcceptedList<'d, 'a>,
    pub second: AcceptedList<'d, 'a>,
    pub added: &'a [u16],
    ghost few_added: { length added.now ≤ max_elements },
    ghost added_there: { (i : ℕ) → i < length added.now → slice_index added.now i < length second.ends.now },
}

impl<'d, 'a> Source<'d, 'a> {
    ghost use Rattle.std.specs.Prelude.{◌≡◌, [], ◌<◌, ◌≤◌, ◌+◌, length};
    ghost use Rattle.centralized_telescope.specs.core.Elements.{elements, element_at, max_elements};
    ghost use Rattle.centralized_telescope.specs.inner.Held.{held, element_read};
    ghost use Rattle.centralized_telescope.specs.inner.SourceHeld.{source_held};
    ghost use Rattle.centralized_telescope.specs.inner.Source.{meant};

    // One list, with nothing added.
    pub fn of_list(list: AcceptedList<'d, 'a>) -> Source<'d, 'a>
        ensures { meant (source_held result) ≡ elements (held list.entry) }
    {
        Source {
            first: list,
            second: list,
            added: &[],
        }
    }

    // How many elements it has.
    pub fn len(&self) -> usize
        ensures exact { result ≡ length (meant (source_held self.now)) }
        ensures few { result ≤ max_elements + max_elements }
    {
        self.first.len() + self.added.len()
    }

    // The element at a place.
    pub fn element(&self, place: usize) -> Element<'d>
        requires { place < length (meant (source_held self.now)) }
        ensures { element_read result ≡ element_at (meant (source_held self.now)) place }
    {
        let first = self.first.len();
        if place < first {
            return self.first.element(place);
        }
        self.second.element(usize::from(self.added[place - first]))
    }
}
