//! Families of rules that this program does not run.

/// Another kind of rule than Golly's Generations over Moore's eight neighbours, which this program
/// does not run. Of several the first of this list is told, but `Bounded` before all.
#[derive(Clone, Copy, Debug, PartialEq, Eq)]
pub enum OtherFamily {
    /// A cell is born where no neighbour is live: `B03/S23` (Golly's help, "Algorithm: QuickLife",
    /// "Emulating B0 rules").
    BirthOnNone,
    /// Another neighbourhood than Moore's, by a letter behind the rule: von Neumann's four neighbours,
    /// `B3/S23V`, or the six of hexagons, `B2/S34H` (Golly's help, "Algorithm: QuickLife").
    Neighbours,
    /// The places of the neighbours count too, by letters behind digits: `B2e3/S23`, `B3/S2-i34q`
    /// (Golly's help, "Algorithm: QuickLife", "Non-totalistic rules").
    NonTotalistic,
    /// A rule of the family on a bounded grid: `B3/S23:T100,200` (Golly's help, "Bounded Grids").
    Bounded,
    /// What becomes of each of 512 neighbourhoods, by a text that begins with `MAP` (Golly's help,
    /// "Algorithm: QuickLife", "MAP rules").
    Map,
    /// A larger neighbourhood: `R5,C0,M1,S34..58,B34..45,NM`, of which `R5` is enough (Golly's help,
    /// "Algorithm: Larger than Life").
    LargerThanLife,
    /// A row of cells: `W110` (Golly's help, "Algorithm: QuickLife", "Wolfram's elementary rules").
    Wolfram,
    /// The name of a rule that Golly runs by a table or tree, or by its algorithm JvN: `WireWorld`,
    /// `LifeHistory`, `Langtons-Loops` (Golly's help, "Algorithm: RuleLoader" and "Algorithm: JvN").
    Table,
}

impl OtherFamily {
    ghost use Rattle.std.specs.Prelude.{◌≡◌};
    ghost use Rattle.header_rules.specs.FamilyWords.{family_words};

    /// Which one it is, and what this program has in its place, behind `is `.
    pub fn words(self) -> &'static str
        ensures { result.now ≡ family_words self }
    {
        match self {
            OtherFamily::BirthOnNone =>
                "of another family (birth on 0 neighbours): this program has Golly's Generations without B0 alone",
            OtherFamily::Neighbours =>
                "of another family (another neighbourhood, V or H): this program has Golly's Generations of all 8 neighbours alone",
            OtherFamily::NonTotalistic =>
                "of another family (letters behind counts): this program has Golly's Generations without letters alone",
            OtherFamily::Bounded =>
                "of another family (a bounded grid): this program has Golly's Generations on a plane without bounds alone",
            OtherFamily::Map =>
                "of another family (a MAP rule): this program has Golly's Generations, told by counts, alone",
            OtherFamily::LargerThanLife =>
                "of another family (Larger than Life): this program has Golly's Generations of the 8 nearest neighbours alone",
            OtherFamily::Wolfram =>
                "of another family (Wolfram's elementary rules): this program has Golly's Generations, of two dimensions, alone",
            OtherFamily::Table =>
                "of another family (Golly runs it by a table): this program has Golly's Generations, told by counts, alone",
        }
    }
}
