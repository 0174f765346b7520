//! Names are compared by their letters, so that they can be keys.

ghost use Rattle.std.specs.Prelude.{◌≡◌, Some, refl, bytes_eq};
ghost use Rattle.std.specs.Ordering.{nat_cmp};
ghost use Rattle.std.specs.Cmp.{partial_equiv_from_equiv};
ghost use Rattle.std.specs.Cmp.Lexicographic.{slice_cmp, nat_list_eq_equiv, nat_list_cmp_total, texts_ties, texts_po};

use crate::command::PatternName;
use std::cmp::Ordering;

impl PartialEq for PatternName {
    ghost eq = { λ a b. bytes_eq a b };

    ghost laws = { partial_equiv_from_equiv nat_list_eq_equiv };

    fn eq(&self, other: &PatternName) -> bool {
        self.as_bytes() == other.as_bytes()
    }
}

impl Eq for PatternName {
    ghost laws = { nat_list_eq_equiv };
}

impl PartialOrd for PatternName {
    ghost partial_cmp = { λ a b. Some (slice_cmp nat_cmp a b) };

    ghost laws = { texts_po };

    fn partial_cmp(&self, other: &PatternName) -> Option<Ordering> {
        Some(self.cmp(other))
    }
}

impl Ord for PatternName {
    ghost cmp = { λ a b. slice_cmp nat_cmp a b };

    ghost total = { nat_list_cmp_total };

    ghost matches_partial_cmp = { λ a b. refl };

    ghost matches_eq = { λ a b. texts_ties a b };

    fn cmp(&self, other: &PatternName) -> Ordering {
        self.as_bytes().cmp(other.as_bytes())
    }
}
