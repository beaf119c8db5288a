// Needs that may grow by those of one more row.
ghost use Rattle.std.specs.Prelude.{◌≡◌, ◌+◌, ◌≤◌};
ghost use Rattle.loading.specs.declared.needs.Needs.{Needs};
ghost use Rattle.loading.specs.Stacks.{nothing};
ghost use Rattle.loading.specs.Surveys.{Small};

use crate::needs::Needs;
use std::marker::Model;

/// The needs of a row of a table, which are so small that those of a row above it fit 16 bits.
#[derive(Clone, Copy)]
pub(crate) struct SmallNeeds {
    needs: Needs,
}

impl Model for SmallNeeds {
    ghost Value = { Needs };

    ghost view = { λ s. s.needs };

    ghost invariant = { λ s. Small s.needs };

    ghost inverse = { λ n. record { needs = n } };
}

impl SmallNeeds {
    pub(crate) fn new(needs: Needs) -> Self
        requires { Small needs }
        ensures { result ≡ needs }
    {
        SmallNeeds { needs }
    }

    pub(crate) fn needs(self) -> Needs
        ensures { result ≡ self }
    {
        self.needs
    }

    // The needs where so many places lie on the two stacks already, at most those of one row.
    pub(crate) fn above(self, control: u16, results: u16) -> Needs
        requires { (control ≤ 2) × (results ≤ 2) }
        ensures control { result.control ≡ self.control + control }
        ensures results { result.results ≡ self.results + results }
    {
        Needs {
            control: self.needs.control + control,
            results: self.needs.results + results,
        }
    }
}

impl Default for SmallNeeds {
    ghost is_default = { λ s. s ≡ nothing };

    fn default() -> Self {
        SmallNeeds::new(Needs::default())
    }
}
