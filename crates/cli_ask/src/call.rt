//! What is sent at a control socket.

ghost use Rattle.std.specs.Prelude.{◌≡◌, IfOk, IsErrOf, OnOk, false, string_bytes, true};
ghost use Rattle.pf_entry.specs.Owned.{command_value};
ghost use Rattle.pf_entry.specs.declared.fault.EncodeFault.TheVariants.{TooLong};
ghost use Rattle.pf_arguments.specs.Asked.{is_too_long};
ghost use Rattle.cli_ask.specs.Calls.{call_value, entry_call, get, post};

use pf_entry::{Command, EncodeFault, encode_asked};
use std::alloc::{AllocError, Global};

/// What a request is for.
#[derive(Clone, Copy)]
pub enum Kind {
    /// To read what a subcommand of the node itself asks for.
    Read,
    /// To read a listing of pfctl's.
    List,
    /// To look addresses up in a table.
    TableTest,
    /// To read verdicts, of which the node returns those that it computes at once.
    Test,
    /// To learn the position of a command that changes nothing.
    Sync,
    /// To change the configuration.
    Change,
}

/// A request as HTTP has it.
#[derive(Drop)]
pub struct Call {
    pub(crate) method: &'static str,
    pub(crate) target: String,
    pub(crate) body: Vec<u8>,
    pub(crate) kind: Kind,
    /// Whether it is sent again where no answer comes.
    pub(crate) is_repeatable: bool,
}

impl Call {
    /// A request without a body.
    pub(crate) fn get(alloc: Global, target: String, kind: Kind) -> Call
        ensures { call_value result ≡ get (string_bytes target) kind }
    {
        Call {
            method: "GET",
            ..Call::post(target, Vec::new(alloc), kind)
        }
    }

    /// A request with a body.
    pub(crate) fn post(target: String, body: Vec<u8>, kind: Kind) -> Call
        ensures { call_value result ≡ post (string_bytes target) body.items kind }
    {
        Call {
            method: "POST",
            target,
            body,
            kind,
            is_repeatable: false,
        }
    }

    /// The same with another body.
    pub(crate) fn with_body(&self, alloc: Global, body: &[u8]) -> Result<Call, AllocError>
        ensures { IfOk result (λ c. call_value c ≡ record (call_value self.now) { body = body.now }) }
    {
        Ok(Call {
            target: String::from_str(alloc, self.target.as_str())?,
            body: Vec::from_slice(alloc, body)?,
            ..*self
        })
    }

    /// A command, as the bytes of its entry. `TooLong` where no entry of it has a spelling.
    pub(crate) fn entry(alloc: Global, command: &Command, kind: Kind) -> Result<Call, EncodeFault>
        ensures call { IfOk result (λ c. call_value c ≡ entry_call (command_value command.now) kind) }
        ensures short { OnOk result (is_too_long (command_value command.now) ≡ false) }
        ensures long { IsErrOf result TooLong → is_too_long (command_value command.now) ≡ true }
    {
        let bytes = encode_asked(alloc, 0, 0, command)?;
        Ok(Call::post(String::from_str(alloc, "/v1/entry")?, bytes, kind))
    }
}
