//! The marks of comments, comment by comment.
ghost use Rattle.std.specs.Prelude.{◌≡◌, ◌<◌, ℕ, List, Some, IfOk, length};
ghost use Rattle.std.specs.List.Sorted.{IsNonDecreasingBy, IsPermutation};
ghost use Rattle.change_ops.specs.declared.operation.Op.{Op};
ghost use Rattle.char_sequence.specs.declared.sequence.Element.{Element};
ghost use Rattle.mark_anchors.specs.Placed.{AreAllPlaced};
ghost use Rattle.mark_anchors.specs.Commented.{AreCommented, AreNumbered, IsCommentEnd, number_of, placed_of};

use crate::key_marks::KeyMarks;
use crate::placed::PlacedMark;
use change_ops::attribute::{CommentNumber, Key};
use std::alloc::{AllocError, Global};

/// A mark of a comment, with the comment's number.
#[derive(Clone, Copy)]
pub(crate) struct CommentMark {
    pub(crate) number: CommentNumber,
    pub(crate) mark: PlacedMark,
}

/// The marks of one comment, so that the one that decides at a place is found.
#[derive(Drop)]
pub(crate) struct CommentMarks {
    pub(crate) number: CommentNumber,
    pub(crate) marks: KeyMarks,
}

/// The number of the comment that the mark adds or removes.
fn comment_number(mark: &PlacedMark) -> Option<CommentNumber>
    ensures some { (n : ℕ) → result ≡ Some n → mark.now.key ≡ Key.Comment n }
    ensures all { (n : ℕ) → mark.now.key ≡ Key.Comment n → result ≡ Some n }
{
    match &mark.key {
        Key::Comment(number) => Some(*number),
        _ => None,
    }
}

/// The marks of comments, as they come.
fn numbered(alloc: Global, marks: &[PlacedMark]) -> Result<Vec<CommentMark>, AllocError>
    ensures { IfOk result (λ comments. AreNumbered marks.now comments.items) }
{
    let mut comments = Vec::with_capacity(alloc, marks.len())?;
    for mark in marks {
        if let Some(number) = comment_number(mark) {
            comments.push(CommentMark {
                number,
                mark: *mark,
            })?;
        }
    }
    Ok(comments)
}

/// The marks by rising numbers of their comments.
fn by_number(mut comments: Vec<CommentMark>) -> Vec<CommentMark>
    ensures rising { IsNonDecreasingBy number_of result.items }
    ensures same { IsPermutation comments.items result.items }
{
    comments.sort_unstable_by_key(|comment| comment.number.number());
    comments
}

/// The marks of comments, by rising numbers of these: those of one comment stand side by side.
pub(crate) fn comment_marks(
    alloc: Global,
    marks: &[PlacedMark],
) -> Result<Vec<CommentMark>, AllocError>
    ensures { IfOk result (λ comments. (es : List Element) (operations : List Op)
        → AreAllPlaced es operations marks.now → AreCommented es operations comments.items) }
{
    let comments = numbered(alloc, marks)?;
    Ok(by_number(comments))
}

/// Where the marks of the comment end whose first one stands at `from`.
pub(crate) fn comment_end(comments: &[CommentMark], from: usize) -> usize
    requires { from < length comments.now }
    ensures { IsCommentEnd comments.now from result }
{
    let number = comments[from].number;
    let mut end = from + 1;
    while end < comments.len() && comments[end].number == number {
        end += 1;
    }
    end
}

/// The marks alone.
fn marks_alone(alloc: Global, comments: &[CommentMark]) -> Result<Vec<PlacedMark>, AllocError>
    ensures { IfOk result (λ marks. marks.items ≡ placed_of comments.now) }
{
    comments.iter().map(|comment| comment.mark).collect(alloc)
}

impl CommentMarks {
    /// The marks of the comment of the number, in whatever order they come.
    pub(crate) fn new(
        alloc: Global,
        number: CommentNumber,
        comments: &[CommentMark],
    ) -> Result<CommentMarks, AllocError>
        ensures number { IfOk result (λ comment. comment.number ≡ number) }
        ensures marks { IfOk result (λ comment. IsPermutation (placed_of comments.now) comment.marks) }
    {
        let marks = KeyMarks::new(alloc, marks_alone(alloc, comments)?)?;
        Ok(CommentMarks { number, marks })
    }
}
