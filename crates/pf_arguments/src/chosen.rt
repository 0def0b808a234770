//! The operation that pfctl's options choose.

ghost use Rattle.std.specs.Prelude.{◌≡◌};
ghost use Rattle.pf_arguments.specs.Asked.{flush_operation, table_operation, show_operation, load_operation, chosen, may_have, operation_of};
ghost use Rattle.pf_arguments.specs.inner.Answers.{given_of};

use crate::given::Given;

/// What is done with an anchor as a whole.
#[derive(Clone, Copy, PartialEq, Eq)]
pub(crate) enum AnchorOperation {
    Load,
    Check,
    FlushRules,
    FlushTables,
    FlushAll,
    ShowRules,
    ShowTables,
    ShowAnchors,
}

/// What is done with one table.
#[derive(Clone, Copy, PartialEq, Eq)]
pub(crate) enum TableOperation {
    Add,
    Delete,
    Replace,
    Flush,
    Show,
    Test,
}

/// What is done.
#[derive(Clone, Copy, PartialEq, Eq)]
pub(crate) enum Operation {
    Whole(AnchorOperation),
    OnTable(TableOperation),
}

/// The value of `-F`.
fn flush_operation(text: &str) -> Option<Operation>
    ensures { result ≡ flush_operation text.now }
{
    match text {
        "rules" => Some(Operation::Whole(AnchorOperation::FlushRules)),
        "Tables" => Some(Operation::Whole(AnchorOperation::FlushTables)),
        "all" => Some(Operation::Whole(AnchorOperation::FlushAll)),
        _ => None,
    }
}

/// The value of `-T`.
fn table_operation(text: &str) -> Option<Operation>
    ensures { result ≡ table_operation text.now }
{
    match text {
        "add" => Some(Operation::OnTable(TableOperation::Add)),
        "delete" => Some(Operation::OnTable(TableOperation::Delete)),
        "replace" => Some(Operation::OnTable(TableOperation::Replace)),
        "flush" => Some(Operation::OnTable(TableOperation::Flush)),
        "show" => Some(Operation::OnTable(TableOperation::Show)),
        "test" => Some(Operation::OnTable(TableOperation::Test)),
        _ => None,
    }
}

/// The value of `-s`.
fn show_operation(text: &str) -> Option<Operation>
    ensures { result ≡ show_operation text.now }
{
    match text {
        "rules" => Some(Operation::Whole(AnchorOperation::ShowRules)),
        "Tables" => Some(Operation::Whole(AnchorOperation::ShowTables)),
        "Anchors" => Some(Operation::Whole(AnchorOperation::ShowAnchors)),
        _ => None,
    }
}

/// What is done with the text of `-f`: with `-n` it is checked alone.
fn load_operation(check: bool) -> Operation
    ensures { result ≡ load_operation check }
{
    if check {
        Operation::Whole(AnchorOperation::Check)
    } else {
        Operation::Whole(AnchorOperation::Load)
    }
}

/// The one operation of `-f`, `-F`, `-T` and `-s`; none where there is none or more than one, or `-n` without `-f`.
pub(crate) fn operation_of(given: Given<'_, '_>) -> Option<Operation>
    ensures { result ≡ operation_of (given_of given.entry) }
{
    match (given.file, given.flush, given.change, given.show) {
        (Some(_), None, None, None) => Some(load_operation(given.check)),
        (None, Some(text), None, None) if !given.check => flush_operation(text),
        (None, None, Some(text), None) if !given.check => table_operation(text),
        (None, None, None, Some(text)) if !given.check => show_operation(text),
        _ => None,
    }
}

impl TableOperation {
    /// Whether that many addresses may be behind it.
    pub(crate) fn may_have(self, count: usize) -> bool
        ensures { result ≡ may_have self count }
    {
        match self {
            TableOperation::Add | TableOperation::Delete | TableOperation::Test => count > 0,
            TableOperation::Replace => true,
            TableOperation::Flush | TableOperation::Show => count == 0,
        }
    }
}
