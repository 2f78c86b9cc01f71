/// What counts where a name stands more than once.
#[derive(Clone, Copy, Debug, PartialEq, Eq)]
pub enum Repeats {
    /// A field's name that stands more than once is refused.
    Refuse,
    /// The last one counts.
    Last,
}
