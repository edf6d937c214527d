//! Which spans of a later version are as they were in an earlier one.
ghost use Rattle.std.specs.Prelude.{◌≡◌, ◌↔◌, ◌+◌, ◌-◌, ◌<◌, ◌≤◌, ℕ, IsTrue, Some, drop, length, slice_get};
ghost use Rattle.span_flatten.specs.Spans.{Span};
ghost use Rattle.feeds.specs.Kept.{AlikeAt, AreAlike, AreFormattedAlike, IsStretch};

use change_ops::keys::{CODE, EM, STRONG};
use mark_anchors::format::Format;
use std::marker::Model;
use version_history::published::{Naming, Published, VersionToken};
use version_pieces::alike::Alike;
use version_pieces::iter::{SpanTexts, spans_from};
use version_pieces::links::keeps_link;
use version_pieces::span_text::SpanText;
use version_pieces::version::PieceVersion;

/// Whether what a program can read of two formats is the same.
fn are_formatted_alike(older: &Format, newer: &Format) -> bool
    ensures { IsTrue result ↔ AreFormattedAlike older.now newer.now }
{
    older.has(STRONG) == newer.has(STRONG)
        && older.has(EM) == newer.has(EM)
        && older.has(CODE) == newer.has(CODE)
        && older.link() == newer.link()
        && older.color() == newer.color()
        && older.comment_count() == newer.comment_count()
}

/// Whether what a program can read of two spans is the same. Their texts are compared where they lie.
fn is_alike(older: SpanText<'_>, newer: SpanText<'_>) -> bool
    ensures { IsTrue result → AreAlike older.entry newer.entry }
{
    // What the link keeps, which the proof needs.
    keeps_link(newer.format);
    older.characters == newer.characters
        && are_formatted_alike(older.format, newer.format)
        && older.text.is_same(newer.text)
}

/// How many spans from the first on are alike, `most` at most.
fn alike_front(older: &PieceVersion, newer: &PieceVersion, most: usize) -> usize
    ensures few { result ≤ most }
    ensures alike { (i : ℕ) → i < result → AlikeAt older.now i newer.now i }
{
    // What the versions keep, which the proof needs.
    older.keeps();
    newer.keeps();
    let mut one = spans_from(older, 0);
    let mut other = spans_from(newer, 0);
    let mut front = 0;
    while front < most && are_next_alike(&mut one, &mut other) {
        front += 1;
    }
    front
}

/// Takes the next span of each, if there is one. Whether they are there and alike.
fn are_next_alike(older: &mut SpanTexts<'_>, newer: &mut SpanTexts<'_>) -> bool
    ensures older { older.new ≡ drop 1 older.old }
    ensures newer { newer.new ≡ drop 1 newer.old }
    ensures alike { IsTrue result → (a b : Span) → slice_get older.old 0 ≡ Some a
        → slice_get newer.old 0 ≡ Some b → AreAlike a b }
{
    match (older.next(), newer.next()) {
        (Some(one), Some(other)) => is_alike(one, other),
        _ => false,
    }
}

/// Spans are read forward, so those at the back are compared in runs of so many, the last run first.
const RUN: usize = 32;

/// How many spans of a run are alike, up to its last one.
fn alike_up_to_last(
    older: &PieceVersion,
    older_from: usize,
    newer: &PieceVersion,
    newer_from: usize,
    count: usize,
) -> usize
    ensures few { result ≤ count }
    ensures alike { (i : ℕ) → i < result
        → AlikeAt older.now (older_from + count - 1 - i) newer.now (newer_from + count - 1 - i) }
{
    // What the versions keep, which the proof needs.
    older.keeps();
    newer.keeps();
    let mut one = spans_from(older, older_from);
    let mut other = spans_from(newer, newer_from);
    let mut alike = 0;
    for _pair in 0..count {
        if are_next_alike(&mut one, &mut other) {
            alike += 1;
        } else {
            alike = 0;
        }
    }
    alike
}

/// How many spans up to the last are alike, `most` at most, where the versions have `older_end` and `newer_end` spans.
fn alike_back(
    older: &PieceVersion,
    older_end: usize,
    newer: &PieceVersion,
    newer_end: usize,
    most: usize,
) -> usize
    requires older { most ≤ older_end }
    requires newer { most ≤ newer_end }
    ensures few { result ≤ most }
    ensures alike { (i : ℕ) → i < result → AlikeAt older.now (older_end - 1 - i) newer.now (newer_end - 1 - i) }
{
    let mut back = 0;
    while back < most {
        let count = RUN.min(most - back);
        let from = back + count;
        let alike = alike_up_to_last(older, older_end - from, newer, newer_end - from, count);
        back += alike;
        if alike < count {
            return back;
        }
    }
    back
}

/// Compares two versions, span by span from the front, and then from the back.
fn compared(before: &PieceVersion, after: &PieceVersion) -> Alike
    ensures { IsStretch before.now after.now result.front result.behind }
{
    let before_end = before.span_count();
    let after_end = after.span_count();
    let most = before_end.min(after_end);
    let front = alike_front(before, after, most);
    let back = alike_back(before, before_end, after, after_end, most - front);
    Alike {
        front,
        behind: back,
    }
}

/// How many spans of two versions are alike, as the token of the later one knows it. They are compared where it
/// doesn't.
fn known_alike<N: Naming>(
    published: &Published<'_, N>,
    older: &VersionToken<N>,
    newer: &VersionToken<N>,
) -> Alike
    ensures { IsStretch older.now.value newer.now.value result.front result.behind }
{
    let before = published.look(older);
    let after = published.look(newer);
    let Some(alike) = published.alike(older, newer) else {
        return compared(before, after);
    };
    // What the versions and their tokens keep, which the proof needs.
    before.keeps();
    after.keeps();
    older.keeps_links();
    newer.keeps_links();
    alike
}

/// Two versions, and how many of their spans are alike at the front and at the back: what a program can read of them
/// differs in index, count and number alone.
pub struct Stretch<N: Naming> {
    older: VersionToken<N>,
    newer: VersionToken<N>,
    front: usize,
    back: usize,
}

impl<N: Naming> Drop for Stretch<N> {
    fn drop(self) {
        let Stretch {
            older: _,
            newer: _,
            front: _,
            back: _,
        } = self;
    }
}

impl<N: Naming> Model for Stretch<N> {
    ghost use Rattle.feeds.specs.Kept.{Stretch as StretchValue, IsStretch};

    ghost Value = { StretchValue };

    ghost view = { λ s. record { older = s.older; newer = s.newer; front = s.front; back = s.back } };

    ghost invariant = { λ s. IsStretch s.older.value s.newer.value s.front s.back };
}

impl<N: Naming> Stretch<N> {
    /// How two versions are alike. None of their spans are compared where the later one's token knows it.
    pub fn between(
        published: &Published<'_, N>,
        older: &VersionToken<N>,
        newer: &VersionToken<N>,
    ) -> Stretch<N>
        ensures { (result.older ≡ older.now) × (result.newer ≡ newer.now) }
    {
        let alike = known_alike(published, older, newer);
        Stretch {
            older: older.again(),
            newer: newer.again(),
            front: alike.front,
            back: alike.behind,
        }
    }

    /// A copy.
    pub fn again(&self) -> Stretch<N>
        ensures { result ≡ self.now }
    {
        Stretch {
            older: self.older.again(),
            newer: self.newer.again(),
            front: self.front,
            back: self.back,
        }
    }

    /// The earlier version.
    pub fn older(&self) -> &VersionToken<N>
        ensures { result.now ≡ self.now.older }
    {
        &self.older
    }

    /// The later version.
    pub fn newer(&self) -> &VersionToken<N>
        ensures { result.now ≡ self.now.newer }
    {
        &self.newer
    }

    /// How many spans from the first on are alike.
    pub fn front(&self) -> usize
        ensures count { result ≡ self.now.front }
        ensures alike { IsStretch self.now.older.value self.now.newer.value self.now.front self.now.back }
    {
        self.front
    }

    /// How many spans up to the last are alike.
    pub fn back(&self) -> usize
        ensures count { result ≡ self.now.back }
        ensures alike { IsStretch self.now.older.value self.now.newer.value self.now.front self.now.back }
    {
        self.back
    }
}
