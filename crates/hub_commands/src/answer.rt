ghost use Rattle.std.specs.Prelude.{◌≡◌, IfOk, IfSome, string_bytes};
ghost use Rattle.hub_commands.specs.Answers.{status_of, done, failed, refused, behind};

use std::alloc::{AllocError, Global};
use std::fmt::Display;
use std::marker::Model;

/// How a command ends.
#[derive(Clone, Copy)]
pub enum Ending {
    Done,
    /// Refused, or the program that was run met a fault or no end.
    Failed,
}

impl Ending {
    /// The exit status.
    pub fn status(self) -> u8
        ensures { result ≡ status_of self }
    {
        match self {
            Ending::Done => 0,
            Ending::Failed => 1,
        }
    }
}

/// What a command prints, and how it ends.
#[derive(Drop)]
pub struct Answer {
    pub ending: Ending,
    pub text: String,
}

impl Model for Answer {
    ghost use Rattle.std.specs.Prelude.{string_bytes};
    ghost use Rattle.hub_commands.specs.Answers.{Answer as AnswerValue};

    ghost Value = { AnswerValue };

    ghost view = { λ a. record { ending = a.ending; text = string_bytes a.text } };
}

impl Answer {
    pub fn done(text: String) -> Answer
        ensures { result ≡ done (string_bytes text) }
    {
        Answer {
            ending: Ending::Done,
            text,
        }
    }

    /// What stopped the command, in one line.
    pub fn failed<D: Display>(alloc: Global, reason: &D) -> Result<Answer, AllocError>
        ensures { IfOk result (λ answer. IfSome (D.output reason.now) (λ text. answer ≡ failed text)) }
    {
        let text = format!(in alloc; "{reason}\n")?;
        Ok(Answer {
            ending: Ending::Failed,
            text,
        })
    }

    /// A refusal, by its number and name and what stands behind them.
    pub fn refused<D: Display>(alloc: Global, reason: &D) -> Result<Answer, AllocError>
        ensures { IfOk result (λ answer. IfSome (D.output reason.now) (λ text. answer ≡ refused text)) }
    {
        let text = format!(in alloc; "refused {reason}\n")?;
        Ok(Answer {
            ending: Ending::Failed,
            text,
        })
    }

    /// The same answer with further text before its own.
    pub fn behind(self, text: String) -> Result<Answer, AllocError>
        ensures { IfOk result (λ answer. answer ≡ behind (string_bytes text) self) }
    {
        let mut text = text;
        text.push_str(self.text.as_str())?;
        Ok(Answer {
            ending: self.ending,
            text,
        })
    }
}
