// Comparisons in tests, which say what they found.
ghost use Rattle.std.specs.Prelude.{◌↔◌, IsOk, IsTrue};

use std::fmt::Debug;
use std::test::Fail;

pub(crate) fn check(holds: bool) -> Result<(), Fail>
    ensures { IsOk result ↔ IsTrue holds }
{
    if holds {
        Ok(())
    } else {
        Err(Fail::new("what should hold does not"))
    }
}

pub(crate) fn check_eq<T: Debug + PartialEq + Drop>(found: T, wanted: T) -> Result<(), Fail>
    ensures { IsOk result ↔ IsTrue (T.eq found wanted) }
{
    if found == wanted {
        Ok(())
    } else {
        Err(Fail::new(format_args!("{found:?} in place of {wanted:?}")))
    }
}

// Each row has the two numbers that a question is asked with, and its answer.
pub(crate) fn check_answers<T: Copy + Debug + PartialEq, Q: Fn(u8, u8) -> T>(
    question: Q,
    rows: &[(u8, u8, T)],
) -> Result<(), Fail>
    requires { Q.IsAlwaysCallable question }
{
    for (first, second, answer) in rows {
        check_eq(question(*first, *second), *answer)?;
    }
    Ok(())
}
