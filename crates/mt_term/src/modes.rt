// The two ways to compare terms.

/// How two terms are compared.
#[derive(Clone, Copy, Debug, PartialEq, Eq)]
pub enum Mode {
    /// As equal.
    Equal,
    /// As a type that is at most another.
    AtMost,
}
