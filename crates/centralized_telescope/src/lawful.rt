// Settings that passed the check.
ghost use Rattle.std.specs.Prelude.{◌≡◌};
ghost use Rattle.centralized_telescope.specs.core.Params.{checked};

use crate::params::Params;

// Settings within their limits: whoever is handed them need not ask again.
#[derive(Clone, Copy)]
pub struct Lawful {
    pub params: Params,
    ghost lawful: { checked params ≡ 0 },
}
