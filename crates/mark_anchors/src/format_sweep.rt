//! The formats of a text's characters, place after place.
ghost use Rattle.std.specs.Prelude.{◌≡◌, ◌<◌, ◌≤◌, ◌↔◌, IfOk, IsTrue, length};
ghost use Rattle.mark_anchors.specs.Formatting.{Format};
ghost use Rattle.mark_anchors.specs.Ranges.{IsFormatAt};

use crate::decided::Decided;
use crate::format::Format;
use crate::resolved::{Near, ResolvedMarks};
use std::alloc::AllocError;
use std::marker::Model;

/// A walk over the characters, hidden ones too, that stands at a place. What was decided there is kept, and what marks
/// decide at the next place is looked for from there on.
#[derive(Drop)]
pub struct FormatSweep<'a> {
    pub(crate) resolved: &'a ResolvedMarks<'a>,
    pub(crate) place: usize,
    pub(crate) decided: Decided<'a>,
    pub(crate) near: Near,
}

impl<'a> Model for FormatSweep<'a> {
    ghost use Rattle.mark_anchors.specs.CommentRuns.{numbers_at};
    ghost use Rattle.mark_anchors.specs.Ranges.{IsFormatAt};
    ghost use Rattle.mark_anchors.specs.Resolution.{FormatSweep as FormatSweepValue, formatting_of};

    ghost Value = { FormatSweepValue };

    ghost view = { λ s. record { resolution = s.resolved.now; place = s.place } };

    ghost invariant = { λ s. IsFormatAt s.resolved.now.elements s.resolved.now.marks s.place
        (formatting_of s.decided (numbers_at s.resolved.now.runs s.place)) };
}

impl FormatSweep<'_> {
    /// Goes on to a place, and says whether the character there has the format of the one where it stood. No format is
    /// made for it.
    pub fn advance(&mut self, place: usize) -> bool
        requires order { self.old.place ≤ place }
        requires there { place < length self.old.resolution.elements }
        ensures alike { (format : Format)
            → IsFormatAt self.old.resolution.elements self.old.resolution.marks self.old.place format
            → IsTrue result ↔ IsFormatAt self.old.resolution.elements self.old.resolution.marks place format }
        ensures resolution { self.new.resolution ≡ self.old.resolution }
        ensures place { self.new.place ≡ place }
    {
        let resolved = self.resolved;
        let decided = resolved.decided_at(place, &mut self.near);
        let alike = resolved.is_alike(&self.decided, self.place, &decided, place, &mut self.near);
        self.place = place;
        self.decided = decided;
        alike
    }

    /// The format of the character where it stands.
    pub fn format(&mut self) -> Result<Format, AllocError>
        ensures format { IfOk result (λ format. IsFormatAt self.old.resolution.elements self.old.resolution.marks
            self.old.place format) }
        ensures same { self.new ≡ self.old }
    {
        self.resolved
            .format_of(&self.decided, self.place, &mut self.near)
    }
}
