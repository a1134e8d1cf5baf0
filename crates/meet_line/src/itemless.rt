//! Drops what has no item, even if items can't be dropped.

ghost use Rattle.std.specs.Prelude.{◌≡◌, None};

/// Drops a None, even if items can't be dropped.
#[inline(always)]
pub fn let_go_none<T>(none: Option<T>)
    requires { none ≡ None }
{
    match none {
        None => {}
        Some(_) => unreachable!(),
    }
}
