//! The subcommands.

ghost use Rattle.std.specs.Prelude.{◌≡◌};
ghost use Rattle.genedit_words.specs.Subcommands.{subcommand_named};

/// A subcommand.
#[derive(Clone, Copy, Debug, PartialEq, Eq)]
pub(crate) enum Subcommand {
    Run,
    Check,
    Rle,
    View,
    Convert,
    Serve,
    Join,
    New,
    Draw,
    Merge,
    Diff,
    Log,
    Export,
    Follow,
    Feed,
    Number,
}

impl Subcommand {
    /// The one that has this name.
    pub(crate) fn named(name: &str) -> Option<Subcommand>
        ensures { result ≡ subcommand_named name.now }
    {
        match name {
            "run" => Some(Subcommand::Run),
            "check" => Some(Subcommand::Check),
            "rle" => Some(Subcommand::Rle),
            "view" => Some(Subcommand::View),
            "convert" => Some(Subcommand::Convert),
            "serve" => Some(Subcommand::Serve),
            "join" => Some(Subcommand::Join),
            "new" => Some(Subcommand::New),
            "draw" => Some(Subcommand::Draw),
            "merge" => Some(Subcommand::Merge),
            "diff" => Some(Subcommand::Diff),
            "log" => Some(Subcommand::Log),
            "export" => Some(Subcommand::Export),
            "follow" => Some(Subcommand::Follow),
            "feed" => Some(Subcommand::Feed),
            "number" => Some(Subcommand::Number),
            _ => None,
        }
    }
}
