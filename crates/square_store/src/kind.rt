//! What leaves may be.

ghost use Rattle.std.specs.Prelude.{◌≡◌, ◌+◌, ◌<◌, ℕ, MatchOption, true};
ghost use Rattle.square_store.specs.Grid.{Grid, blank_grid, quartered, AreSameWithin, IsBlankWithin, IsSpeltWithin};

use std::hash::Hash;

/// A kind of leaf: the least squares of a store, with one number of columns and rows. Two leaves
/// with the same writes are equal.
pub trait LeafKind: Copy + Eq + Hash {
    /// What a store keeps of each square beside its parts: `()`, or a count, or bounds.
    type Summary: Copy;

    /// The write in a column and a row.
    ghost write: { Self → Grid };

    /// How many columns and rows there are.
    ghost side: { ℕ };

    /// What holds of each leaf.
    ghost IsLeaf: { Self → Type 0 };

    /// What a summary says of the writes of a square with so many columns and rows.
    ghost IsSummary: { ℕ → Grid → Self.Summary → Type 0 };

    /// The stamp of a leaf that is blank: state 0 at every place, written with that stamp.
    fn blank_stamp(&self) -> Option<u64>
        ensures leaf { IsLeaf self.now }
        ensures blank { MatchOption result (IsSpeltWithin side (write self.now)) (IsBlankWithin side (write self.now)) };

    /// The summary of a leaf.
    fn summary(&self) -> Self::Summary
        ensures { IsSummary side (write self.now) result };

    /// The summary of the blanks of a stamp, whatever their side.
    fn summary_of_blank(stamp: u64) -> Self::Summary
        ensures { (n : ℕ) → 0 < n → IsSummary n (blank_grid stamp) result };

    /// The summary of four squares of one side together.
    fn summary_of_four(
        nw: Self::Summary,
        ne: Self::Summary,
        sw: Self::Summary,
        se: Self::Summary,
    ) -> Self::Summary
        ensures { (n : ℕ) (f g h i : Grid) → 0 < n → IsSummary n f nw → IsSummary n g ne → IsSummary n h sw → IsSummary n i se → IsSummary (n + n) (quartered n f g h i) result };

    /// A leaf is not empty.
    ghost some: { 0 < side };

    /// Equal leaves are one value.
    ghost same: { (a b : Self) → Self.Eq.eq a b ≡ true → a ≡ b };

    /// The writes tell a leaf.
    ghost exact: { (a b : Self) → IsLeaf a → IsLeaf b → AreSameWithin side (write a) (write b) → a ≡ b };
}
