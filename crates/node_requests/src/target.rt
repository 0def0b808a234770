//! Paths and their methods.

ghost use Rattle.std.specs.Prelude.{◌≡◌};
ghost use Rattle.node_requests.specs.Targets.{method_of, plain_target, takes};

/// What a path names.
#[derive(Clone, Copy, PartialEq, Eq)]
pub(crate) enum Target {
    Changes,
    Entry,
    Requests,
    Rules,
    Tables,
    Anchors,
    Table,
    TableTest,
    Test,
    Log,
    Entries,
    Status,
    Health,
    Ready,
    Metrics,
    Stop,
}

impl Target {
    /// What a path names, but for the paths of requests.
    pub(crate) fn of(path: &str) -> Option<Target>
        ensures { result ≡ plain_target path.now }
    {
        match path {
            "/v1/changes" => Some(Target::Changes),
            "/v1/entry" => Some(Target::Entry),
            "/v1/rules" => Some(Target::Rules),
            "/v1/tables" => Some(Target::Tables),
            "/v1/anchors" => Some(Target::Anchors),
            "/v1/table" => Some(Target::Table),
            "/v1/table-test" => Some(Target::TableTest),
            "/v1/test" => Some(Target::Test),
            "/v1/log" => Some(Target::Log),
            "/v1/entries" => Some(Target::Entries),
            "/v1/status" => Some(Target::Status),
            "/healthz" => Some(Target::Health),
            "/readyz" => Some(Target::Ready),
            "/metrics" => Some(Target::Metrics),
            "/v1/stop" => Some(Target::Stop),
            _ => None,
        }
    }

    /// The one method of a path.
    pub(crate) fn method(self) -> &'static str
        ensures { result.now ≡ method_of self }
    {
        match self {
            Target::Changes | Target::Entry | Target::TableTest | Target::Test | Target::Stop =>
                "POST",
            _ => "GET",
        }
    }

    /// Whether a parameter of this name may be behind the path.
    pub(crate) fn takes(self, name: &str) -> bool
        ensures { result ≡ takes self name.now }
    {
        match self {
            Target::Rules | Target::Tables => name == "a" || name == "at",
            Target::Table | Target::TableTest => name == "a" || name == "t" || name == "at",
            Target::Anchors | Target::Test | Target::Requests | Target::Status => name == "at",
            Target::Log => name == "from" || name == "at",
            Target::Entries => name == "from" || name == "count" || name == "at",
            _ => false,
        }
    }
}
