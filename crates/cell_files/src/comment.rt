//! The comments of a file.

ghost use Rattle.std.specs.Prelude.{◌≡◌, ◌++◌, ◌∷◌, [], IfOk, OnOk, option_map};
ghost use Rattle.std.specs.Option.{option_or};
ghost use Rattle.cell_files.specs.Comments.{behind_blank, comment_behind, comment_in, comment_line, comment_lines, line_of_comment, mark_text, without_blank};

use crate::format::CellFormat;
use crate::head::behind_word;
use header_rules::split_line;
use std::alloc::{AllocError, Global};
use text_scan::is_blank;

/// What a comment is said of, as RLE files have it.
#[derive(Clone, Copy, Debug, PartialEq, Eq)]
pub enum CommentMark {
    /// The pattern's name: `#N`.
    Name,
    /// Who found it, and when: `#O`.
    Author,
    /// Anything: `#C`.
    Remark,
}

/// A comment, lent from its file; its text has no line's end.
#[derive(Clone, Copy)]
pub struct Comment<'a> {
    pub mark: CommentMark,
    pub text: &'a [u8],
}

/// The comment that a line is, if it is one of a file of this format: `#N`, `#O` and `#C` of RLE, `#D` of MCell,
/// a line that begins with `!` of plaintext. Other lines that RLE's readers pass over, as `#CXRLE`, are none.
pub fn comment_in(format: CellFormat, line: &[u8]) -> Option<Comment<'_>>
    ensures { option_map (λ comment. record { mark = comment.mark; text = comment.text.now }) result ≡ comment_in format line.now }
{
    match format {
        CellFormat::Rle => comment_behind(CommentMark::Name, b"#N", line).or(comment_behind(
            CommentMark::Author,
            b"#O",
            line,
        ).or(comment_behind(CommentMark::Remark, b"#C", line))),
        CellFormat::MCell => comment_behind(CommentMark::Remark, b"#D", line),
        CellFormat::Plaintext => note(line),
        CellFormat::State | CellFormat::Document | CellFormat::Macrocell => None,
    }
}

/// A comment behind a word and a blank.
fn comment_behind<'a>(mark: CommentMark, word: &[u8], line: &'a [u8]) -> Option<Comment<'a>>
    ensures { option_map (λ comment. record { mark = comment.mark; text = comment.text.now }) result ≡ comment_behind mark word.now line.now }
{
    let rest = behind_word(word, line)?;
    Some(Comment {
        mark,
        text: without_blank(rest),
    })
}

/// A comment of plaintext.
fn note(line: &[u8]) -> Option<Comment<'_>>
    ensures { option_map (λ comment. record { mark = comment.mark; text = comment.text.now }) result ≡ comment_in CellFormat.Plaintext line.now }
{
    let rest = text_scan::behind(b'!', line)?;
    Some(Comment {
        mark: CommentMark::Remark,
        text: without_blank(rest),
    })
}

/// A text without the one blank that parts it from its mark.
fn without_blank(text: &[u8]) -> &[u8]
    ensures { result.now ≡ without_blank text.now }
{
    match text.split_first() {
        Some((byte, rest)) if is_blank(*byte) => rest,
        _ => text,
    }
}

/// The lines of a file's comments as an RLE text has them, in their order: `#N TEXT`, `#O TEXT` or `#C TEXT`.
pub fn comment_lines(alloc: Global, format: CellFormat, text: &[u8]) -> Result<Vec<u8>, AllocError>
    ensures { IfOk result (λ lines. lines.items ≡ comment_lines format text.now) }
{
    let mut out = Vec::new(alloc);
    let mut rest = Some(text);
    while let Some(lines) = rest {
        let (line, behind) = split_line(lines);
        push_comment(&mut out, comment_in(format, line))?;
        rest = behind;
    }
    Ok(out)
}

fn push_comment(out: &mut Vec<u8>, comment: Option<Comment<'_>>) -> Result<(), AllocError>
    ensures { OnOk result (out.new.items ≡ out.old.items
        ++ line_of_comment (option_map (λ comment. record { mark = comment.mark; text = comment.text.now }) comment.entry)) }
{
    match comment {
        Some(comment) => push_line(out, comment),
        None => Ok(()),
    }
}

fn push_line(out: &mut Vec<u8>, comment: Comment<'_>) -> Result<(), AllocError>
    ensures { OnOk result (out.new.items ≡ out.old.items ++ comment_line (record { mark = comment.entry.mark; text = comment.entry.text.now })) }
{
    out.extend_from_slice(mark_text(comment.mark))?;
    push_behind_blank(out, comment.text)?;
    out.push(b'\n')?;
    Ok(())
}

fn push_behind_blank(out: &mut Vec<u8>, text: &[u8]) -> Result<(), AllocError>
    ensures { OnOk result (out.new.items ≡ out.old.items ++ behind_blank text.now) }
{
    if text.is_empty() {
        return Ok(());
    }
    out.push(b' ')?;
    out.extend_from_slice(text)
}

fn mark_text(mark: CommentMark) -> &'static [u8]
    ensures { result.now ≡ mark_text mark }
{
    match mark {
        CommentMark::Name => b"#N",
        CommentMark::Author => b"#O",
        CommentMark::Remark => b"#C",
    }
}
