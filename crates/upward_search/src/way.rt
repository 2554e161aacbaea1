ghost use Rattle.std.specs.Prelude.{◌≡◌};
ghost use Rattle.upward_search.specs.Ladders.{turned as other_way};

/// Which way a search goes: from its start along climbing arcs, or to its start against falling ones.
#[derive(Clone, Copy)]
pub(crate) enum Way {
    From,
    To,
}

impl Way {
    /// The other way.
    pub(crate) fn turned(self) -> Way
        ensures { result ≡ other_way self }
    {
        match self {
            Way::From => Way::To,
            Way::To => Way::From,
        }
    }
}
