// The elements of an accepted list, wherever their ends and indexes lie.
ghost use Rattle.std.specs.Prelude.{◌≡◌, ◌<◌, length};
ghost use Rattle.centralized_telescope.specs.core.Elements.{element_at};
ghost use Rattle.centralized_telescope.specs.inner.Held.{element_read};
ghost use Rattle.centralized_telescope.specs.inner.Following.{ElementList};

use crate::lists::{AcceptedList, Element};

// An accepted list, read an element at a time.
pub trait Listed {
    // its elements
    ghost listed: { Self → ElementList };

    // How many there are.
    fn len(&self) -> usize
        ensures { result ≡ length (listed self.now) };

    // The one at a place.
    fn element(&self, place: usize) -> Element<'_>
        requires { place < length (listed self.now) }
        ensures { element_read result ≡ element_at (listed self.now) place };
}

impl<'d, 'a> Listed for AcceptedList<'d, 'a> {
    ghost use Rattle.centralized_telescope.specs.core.Elements.{elements};
    ghost use Rattle.centralized_telescope.specs.inner.Held.{held};

    ghost listed = { λ list. elements (held list) };

    #[tactic(auto, using(crate::proofs::ListAnswers::elements_held))]
    fn len(&self) -> usize {
        AcceptedList::len(*self)
    }

    #[tactic(auto, using(crate::proofs::ListAnswers::elements_held))]
    fn element(&self, place: usize) -> Element<'_> {
        AcceptedList::element(*self, place)
    }
}
