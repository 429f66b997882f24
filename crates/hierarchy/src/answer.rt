//! The answer of a comparison of names or types.
ghost use Rattle.std.specs.Prelude.{◌≡◌};
ghost use Rattle.hierarchy.specs.Answer.{outcome_of, yes_if};

/// Yes, no, or the name of a class that would be needed and is absent.
#[derive(Clone, Copy, Debug, PartialEq, Eq)]
pub enum Answer<'a> {
    Yes,
    No,
    Missing(&'a [u8]),
}

impl Answer<'_> {
    /// Yes where it holds, and no where it does not.
    #[inline]
    pub fn yes_if(holds: bool) -> Self
        ensures { outcome_of result ≡ yes_if holds }
    {
        if holds { Answer::Yes } else { Answer::No }
    }
}
