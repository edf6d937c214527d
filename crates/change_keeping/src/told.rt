//! What the keeper tells a session.
use crate::keeping::Keeping;
use change_history::refusal::SubmitError;
use change_log::text::ChangeText;
use std::marker::{Model, PhantomData};

/// The text of a change, and its number among those that are kept for the hub `N`, or why it isn't kept. Contracts see
/// both.
pub(crate) struct Told<N: Keeping> {
    text: ChangeText,
    answer: Result<u64, SubmitError>,
    of: PhantomData<N>,
}

// By hand, so that a proof of a function that lets several go sees one call there.
impl<N: Keeping> Drop for Told<N> {
    fn drop(self) {
        let Told {
            text: _,
            answer: _,
            of: _,
        } = self;
    }
}

impl<N: Keeping> Model for Told<N> {
    ghost use Rattle.change_keeping.specs.Kept.{Told as ToldValue, IsToldOf};

    ghost Value = { ToldValue };

    ghost view = { λ t. record { text = t.text; answer = t.answer } };

    ghost invariant = { λ t. IsToldOf N.kept t.text t.answer };
}

impl<N: Keeping> Told<N> {
    ghost use Rattle.std.specs.Prelude.{◌≡◌, IfSome};
    ghost use Rattle.change_keeping.specs.Kept.{IsToldOf};

    pub(crate) fn new(text: ChangeText, answer: Result<u64, SubmitError>) -> Told<N>
        requires { IsToldOf N.kept text answer }
        ensures { result ≡ record { text = text; answer = answer } }
    {
        Told {
            text,
            answer,
            of: PhantomData,
        }
    }

    /// What is told of this text; None where it is another's.
    pub(crate) fn of(&self, text: &str) -> Option<Result<u64, SubmitError>>
        ensures { IfSome result (IsToldOf N.kept text.now) }
    {
        if self.text.as_str() == text {
            Some(self.answer)
        } else {
            None
        }
    }
}
