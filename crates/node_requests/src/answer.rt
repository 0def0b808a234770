//! An answer as HTTP has it.

ghost use Rattle.std.specs.Prelude.{◌≡◌, ◌++◌, IfOk, string_bytes};
ghost use Rattle.node_requests.specs.Answers.{status_of, answer_value, refused, shown, answered};
ghost use Rattle.pf_arguments.specs.Answers.{action_value};
ghost use Rattle.pf_scripts.specs.Listings.{listed};

use pf_arguments::Action;
use pf_config::Config;
use pf_scripts::{list, push_refusal};
use std::alloc::{AllocError, Global};

/// What pushes onto a text, and what makes an answer, gives.
pub(crate) type Pushed = Result<(), AllocError>;

pub(crate) type Answered = Result<Answer, AllocError>;

/// What is answered: HTTP's status, and the body, which is what an operator reads.
#[derive(Drop)]
pub struct Answer {
    /// HTTP's status (RFC 9110, 15).
    pub code: u16,
    /// The body: lines, each with its newline.
    pub body: String,
}

/// HTTP's status for the number of a refusal: 404 no such table, 413 too long, 429 too many wait, 503 nothing is
/// accepted, else 400.
pub fn status_of(code: u8) -> u16
    ensures { result ≡ status_of code }
{
    match code {
        20 => 404,
        41 => 413,
        60 => 429,
        62 | 70 | 72 | 80 => 503,
        _ => 400,
    }
}

impl Answer {
    /// An answer with this status and body.
    pub(crate) fn of(alloc: Global, code: u16, text: &str) -> Result<Answer, AllocError>
        ensures { IfOk result (λ a. answer_value a ≡ record { code = code; body = text.now }) }
    {
        let body = String::from_str(alloc, text)?;
        Ok(Answer { code, body })
    }

    /// What was asked for.
    pub(crate) fn shown(body: String) -> Answer
        ensures { answer_value result ≡ shown (string_bytes body) }
    {
        Answer { code: 200, body }
    }

    /// A refusal: its number, and the line of a refused text, 0 where there is none.
    pub fn refused(alloc: Global, code: u8, at: u64) -> Result<Answer, AllocError>
        ensures { IfOk result (λ a. answer_value a ≡ refused code at) }
    {
        let mut body = String::new(alloc);
        push_refusal(&mut body, code, at)?;
        Ok(Answer {
            code: status_of(code),
            body,
        })
    }

    /// What an action lists at a configuration, or its refusal.
    pub(crate) fn listed(alloc: Global, config: &Config, action: &Action) -> Answered
        ensures { IfOk result (λ a. answer_value a ≡ answered (listed config.now (action_value action.now))) }
    {
        match list(alloc, config, action)? {
            Ok(output) => Ok(Answer::shown(output)),
            Err(code) => Answer::refused(alloc, code, 0),
        }
    }
}
