//! A session's place at the desk.
ghost use Rattle.std.specs.Prelude.{◌≡◌, IfOk, IfErr};
ghost use Rattle.change_ops.specs.Spelling.{change_text};
ghost use Rattle.stored_history.specs.Texts.{IsTextOf};
ghost use Rattle.change_keeping.specs.Kept.{IsStored, IsErrorOf};

use crate::desk::{Desk, Reply, Request};
use crate::keeper::{KeepError, Keeper};
use crate::keeping::Keeping;
use change_history::refusal::SubmitError;
use change_log::text::ChangeText;
use change_ops::change::Change;
use change_ops::writing::write_change;
use crossbeam_channel::{Receiver, Sender};
use std::alloc::{AllocError, Global};
use std::sync::Wait;

/// Where a session leaves its changes, and where it is told of them.
#[derive(Drop)]
struct Place<'d, N: Keeping> {
    desk: &'d Desk<N>,
    reply: Sender<Reply<N>>,
    told: Receiver<Reply<N>>,
}

/// What keeps the changes of one session: a place at the desk, or nothing where there is no store.
#[derive(Drop)]
pub struct Clerk<'d, N: Keeping, R: Wait + Copy> {
    rt: R,
    alloc: Global,
    place: Option<Place<'d, N>>,
}

/// The text of a change.
pub(crate) fn text_of(alloc: Global, change: &Change) -> Result<ChangeText, AllocError>
    ensures { IfOk result (λ text. IsTextOf text change.now) }
{
    // For its contract: the change is within the limits, as what its text is read as has to be.
    let _node = change.node();
    let mut text = String::new(alloc);
    write_change(change, &mut text)?;
    ChangeText::of(text)
}

impl<'d, N: Keeping> Place<'d, N> {
    fn new(alloc: Global, desk: &'d Desk<N>) -> Result<Place<'d, N>, AllocError> {
        let (reply, told) = crossbeam_channel::bounded(alloc, 1)?;
        Ok(Place { desk, reply, told })
    }

    /// Leaves a text, which isn't copied.
    fn leave<R: Wait>(&self, rt: &R, text: &ChangeText) -> Result<bool, AllocError> {
        let request = Request::new(text.again()?, self.reply.clone()?);
        Ok(self.desk.leave(rt, request))
    }

    /// Waits for what is told of a text.
    fn wait<R: Wait>(&self, rt: &R, text: &ChangeText) -> Result<u64, KeepError>
        ensures ok { IfOk result (λ number. IsStored N.kept number text.now) }
        ensures err { IfErr result (IsErrorOf N.kept text.now) }
    {
        let Ok(Reply::Told(told)) = self.told.recv(rt) else {
            return Err(KeepError::Failed);
        };
        match told.of(text.as_str()) {
            Some(Ok(number)) => Ok(number),
            Some(Err(error)) => Err(KeepError::Refused(error)),
            None => {
                // Another's answer can't come here. Nothing may be acknowledged after one that did.
                self.desk.fail();
                self.desk.settle(rt, false);
                Err(KeepError::Failed)
            }
        }
    }

    /// Has a change kept.
    fn keep<R: Wait>(&self, rt: &R, alloc: Global, change: &Change) -> Result<u64, KeepError>
        ensures ok { IfOk result (λ number. IsStored N.kept number (change_text change.now)) }
        ensures err { IfErr result (IsErrorOf N.kept (change_text change.now)) }
    {
        if self.desk.is_failed() {
            return Err(KeepError::Failed);
        }
        let Ok(text) = text_of(alloc, change) else {
            return Err(KeepError::Refused(SubmitError::OutOfMemory));
        };
        match self.leave(rt, &text) {
            Ok(true) => self.wait(rt, &text),
            Ok(false) => Err(KeepError::Failed),
            Err(AllocError) => Err(KeepError::Refused(SubmitError::OutOfMemory)),
        }
    }
}

impl<'d, N: Keeping, R: Wait + Copy> Clerk<'d, N, R> {
    /// A place at the desk, or none where there is no desk.
    pub fn new(
        rt: R,
        alloc: Global,
        desk: Option<&'d Desk<N>>,
    ) -> Result<Clerk<'d, N, R>, AllocError> {
        let place = match desk {
            Some(desk) => Some(Place::new(alloc, desk)?),
            None => None,
        };
        Ok(Clerk { rt, alloc, place })
    }
}

impl<N: Keeping, R: Wait + Copy> Keeper for Clerk<'_, N, R> {
    ghost use Rattle.std.specs.Prelude.{true, false, Some, None, is_some};

    ghost kept = { N.kept };

    ghost stores = { λ clerk. is_some clerk.place };

    fn keep(&mut self, change: &Change) -> Result<Option<u64>, KeepError> {
        match &self.place {
            Some(place) => {
                let number = place.keep(&self.rt, self.alloc, change)?;
                Ok(Some(number))
            }
            None => Ok(None),
        }
    }

    fn settle(&mut self, is_shown: bool) {
        if let Some(place) = &self.place {
            place.desk.settle(&self.rt, is_shown);
        }
    }
}
