//! Numbers as values of a narrower type.
ghost use Rattle.std.specs.Prelude.{Result, IsOk};

/// A number that lies in the range of the type.
pub(crate) fn narrow<T: TryFrom<i64>>(n: i64) -> T
where
    T::Error: Drop,
    requires { (r : Result T T.Error) → T.try_from_gives n r → IsOk r }
    ensures { T.try_from_gives n (Ok result) }
{
    T::try_from(n).unwrap()
}
