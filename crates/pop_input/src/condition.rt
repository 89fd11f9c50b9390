//! The fairy conditions, and the choice of their rules.

/// The rules that `under_condition!` chooses from.
pub use chess_attacks::{Circe, Madrasi, Orthodox};

/// A fairy condition of a problem (Popeye manual, Circe and Madrasi).
#[derive(Clone, Copy, Debug, PartialEq, Eq)]
pub enum Condition {
    /// Circe: a captured man is reborn on its square of rebirth, if that is free.
    Circe,
    /// Madrasi: a man that is attacked by an enemy man of its own kind is paralysed.
    Madrasi,
}

/// Calls a function under the rules of a condition: `under_condition!(condition, f::<_, T>(a, b))` calls
/// `f::<R, T>(a, b)`, where `R` is the type of these rules. `f` requires `R.rule` to be `rule_of condition`, so each
/// call proves the choice.
#[macro_export]
macro_rules! under_condition {
    ($condition:expr, $function:ident::<_ $(, $other:ty)*>($($argument:expr),*)) => {
        match $condition {
            None => $function::<$crate::Orthodox $(, $other)*>($($argument),*),
            Some($crate::Condition::Circe) => {
                $function::<$crate::Circe $(, $other)*>($($argument),*)
            }
            Some($crate::Condition::Madrasi) => {
                $function::<$crate::Madrasi $(, $other)*>($($argument),*)
            }
        }
    };
}
