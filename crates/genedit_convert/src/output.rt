//! The file that is written.

ghost use Rattle.std.specs.Prelude.{◌≡◌};
ghost use Rattle.genedit_convert.specs.Outputs.{ends_with_rle, output_status, output_text};

use whole_files::WriteRefusal;

/// Whether a name is that of an RLE file.
pub fn is_rle_name(path: &[u8]) -> bool
    ensures { result ≡ ends_with_rle path.now }
{
    &path[path.len().saturating_sub(4)..] == b".rle".as_slice()
}

/// Why a file is not written, in words, behind its name.
pub fn output_text(refusal: WriteRefusal) -> &'static str
    ensures { result.now ≡ output_text refusal }
{
    match refusal {
        WriteRefusal::Exists => "there is such a file; --replace replaces it",
        WriteRefusal::NoFile => "it is no file",
        WriteRefusal::System(cause) => cause.text(),
        WriteRefusal::Memory => "out of memory",
    }
}

/// The status of the process that could not write a file.
pub fn output_status(refusal: WriteRefusal) -> u8
    ensures { result ≡ output_status refusal }
{
    match refusal {
        WriteRefusal::Exists => 2,
        WriteRefusal::NoFile | WriteRefusal::System(_) => 4,
        WriteRefusal::Memory => 5,
    }
}
