//! How the capacity of a region was calculated.
ghost use Rattle.std.specs.Prelude.{◌≡◌, Some, None, MatchResult};
ghost use Rattle.hourbook.specs.Lawful.{method_of};

#[derive(Clone, Copy, Debug, PartialEq, Eq)]
pub(crate) enum Method {
    FlowBased,
    Coordinated,
}

// A number that no method has.
#[derive(Clone, Copy, Debug, PartialEq, Eq)]
pub(crate) struct UnknownMethod(pub(crate) u8);

impl TryFrom<u8> for Method {
    type Error = UnknownMethod;

    ghost try_from_gives = { λ n r. MatchResult r (λ m. method_of n ≡ Some m) (λ e. (method_of n ≡ None) × (e.0 ≡ n)) };

    fn try_from(number: u8) -> Result<Method, UnknownMethod> {
        match number {
            1 => Ok(Method::FlowBased),
            2 => Ok(Method::Coordinated),
            _ => Err(UnknownMethod(number)),
        }
    }
}
