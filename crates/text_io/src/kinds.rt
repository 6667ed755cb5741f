ghost use Rattle.std.specs.Prelude.{◌≡◌};
ghost use Rattle.text_io.specs.Kinds.{version_word, limit_word, throw_word, event_word, version_of, limit_of, throw_of, event_of};
ghost use Rattle.text_io.specs.Limits.{by_version, limit_number, common_limit, IsCommon};

/// A version of the script language, which a script names in its first line.
#[derive(Clone, Copy, Debug, PartialEq, Eq, Hash)]
pub enum Version {
    /// Version 1.
    First,
    /// Version 2: adds device pixels, scroll margins and positioned boxes, and raises some limits.
    Second,
}

impl Version {
    /// All versions.
    pub const ALL: [Version; 2] = [Version::First, Version::Second];

    /// Returns the word for it in a script's first line.
    pub fn text(&self) -> &'static str
        ensures { result.now ≡ version_word self.now }
    {
        match self {
            Version::First => "1",
            Version::Second => "2",
        }
    }

    /// Returns the version that this word names, or `None` if there is none.
    #[tactic(auto, unfolding(crate::specs::Kinds::named))]
    pub fn named(word: &[u8]) -> Option<Version>
        ensures { result ≡ version_of word.now }
    {
        Version::ALL
            .iter()
            .copied()
            .find(|version| version.text().as_bytes() == word)
    }
}

/// What a run has a limit on. The first four limits can be met while the script is read, the last two while a source of several texts
/// is read, and the others by a command.
#[derive(Clone, Copy, Debug, PartialEq, Eq, Hash)]
pub enum LimitKind {
    /// Bytes of the script.
    Script,
    /// Bytes of a line.
    Line,
    /// Handlers of the script.
    Handlers,
    /// Nested blocks.
    Nesting,
    /// Commands begun.
    Commands,
    /// Nodes created in all.
    Nodes,
    /// Levels of a tree: elements on the path from a node to its root, both included.
    Depth,
    /// Documents created, including the outermost one.
    Documents,
    /// Resize observers created.
    ResizeObservers,
    /// Intersection observers created.
    IntersectionObservers,
    /// Resize observations at a time.
    ResizeObservations,
    /// Intersection observations at a time.
    IntersectionObservations,
    /// Listeners at a time.
    Listeners,
    /// Pending timers.
    Timers,
    /// Pending frame callbacks.
    FrameCallbacks,
    /// Posted tasks that haven't run yet.
    Tasks,
    /// Media query lists created.
    Queries,
    /// Bytes of a source that has a recorded trace.
    Recorded,
    /// Pages of a stream.
    Pages,
}

/// Returns the number for this version.
fn by_version(version: Version, first: u64, second: u64) -> u64
    ensures { result ≡ by_version version first second }
{
    match version {
        Version::First => first,
        Version::Second => second,
    }
}

impl LimitKind {
    /// All limits.
    pub const ALL: [LimitKind; 19] = [
        LimitKind::Script,
        LimitKind::Line,
        LimitKind::Handlers,
        LimitKind::Nesting,
        LimitKind::Commands,
        LimitKind::Nodes,
        LimitKind::Depth,
        LimitKind::Documents,
        LimitKind::ResizeObservers,
        LimitKind::IntersectionObservers,
        LimitKind::ResizeObservations,
        LimitKind::IntersectionObservations,
        LimitKind::Listeners,
        LimitKind::Timers,
        LimitKind::FrameCallbacks,
        LimitKind::Tasks,
        LimitKind::Queries,
        LimitKind::Recorded,
        LimitKind::Pages,
    ];

    /// Returns the word for it in a trace.
    pub fn text(&self) -> &'static str
        ensures { result.now ≡ limit_word self.now }
    {
        match self {
            LimitKind::Script => "script",
            LimitKind::Line => "line",
            LimitKind::Handlers => "handlers",
            LimitKind::Nesting => "nesting",
            LimitKind::Commands => "commands",
            LimitKind::Nodes => "nodes",
            LimitKind::Depth => "depth",
            LimitKind::Documents => "documents",
            LimitKind::ResizeObservers => "resize-observers",
            LimitKind::IntersectionObservers => "intersection-observers",
            LimitKind::ResizeObservations => "resize-observations",
            LimitKind::IntersectionObservations => "intersection-observations",
            LimitKind::Listeners => "listeners",
            LimitKind::Timers => "timers",
            LimitKind::FrameCallbacks => "frame-callbacks",
            LimitKind::Tasks => "tasks",
            LimitKind::Queries => "queries",
            LimitKind::Recorded => "recorded",
            LimitKind::Pages => "pages",
        }
    }

    /// Returns the limit that this word names, or `None` if there is none.
    #[tactic(auto, unfolding(crate::specs::Kinds::named))]
    pub fn named(word: &[u8]) -> Option<LimitKind>
        ensures { result ≡ limit_of word.now }
    {
        LimitKind::ALL
            .iter()
            .copied()
            .find(|kind| kind.text().as_bytes() == word)
    }

    /// Returns the most that a run of a script of this version may have: bytes for `Script`, `Line` and `Recorded`, and a number of
    /// things of this kind for the others. The values are this project's own choice.
    pub fn number(&self, version: Version) -> u64
        ensures { result ≡ limit_number version self.now }
    {
        match self {
            LimitKind::Script => 16_777_216,
            LimitKind::Line => 4_096,
            LimitKind::Handlers => 4_096,
            LimitKind::Nesting => 16,
            LimitKind::Commands => by_version(version, 1_000_000, 2_000_000),
            LimitKind::Nodes => by_version(version, 20_000, 40_000),
            LimitKind::Depth => 256,
            LimitKind::Documents => 64,
            LimitKind::ResizeObservers => 4_096,
            LimitKind::IntersectionObservers => 4_096,
            LimitKind::ResizeObservations => by_version(version, 50_000, 100_000),
            LimitKind::IntersectionObservations => by_version(version, 50_000, 100_000),
            LimitKind::Listeners => 4_096,
            LimitKind::Timers => 4_096,
            LimitKind::FrameCallbacks => 4_096,
            LimitKind::Tasks => 4_096,
            LimitKind::Queries => 4_096,
            LimitKind::Recorded => 67_108_864,
            LimitKind::Pages => 8,
        }
    }

    /// Returns the value of a limit that is the same in every version, as are those that can be met before the version is known.
    pub fn common(&self) -> u64
        requires { IsCommon self.now }
        ensures { result ≡ common_limit self.now }
    {
        self.number(Version::First)
    }
}

/// The exceptions of DOM and Web IDL that a command can throw.
#[derive(Clone, Copy, Debug, PartialEq, Eq, Hash)]
pub enum ThrowKind {
    /// A name isn't defined.
    ReferenceError,
    /// A value isn't of the required kind.
    TypeError,
    /// A node can't be inserted there in the tree.
    HierarchyRequestError,
    /// A node isn't where it was expected in the tree.
    NotFoundError,
    /// A string can't be parsed.
    SyntaxError,
    /// A number is out of range.
    RangeError,
}

impl ThrowKind {
    /// All exceptions.
    pub const ALL: [ThrowKind; 6] = [
        ThrowKind::ReferenceError,
        ThrowKind::TypeError,
        ThrowKind::HierarchyRequestError,
        ThrowKind::NotFoundError,
        ThrowKind::SyntaxError,
        ThrowKind::RangeError,
    ];

    /// Returns the name of the exception, as it appears in a trace.
    pub fn text(&self) -> &'static str
        ensures { result.now ≡ throw_word self.now }
    {
        match self {
            ThrowKind::ReferenceError => "ReferenceError",
            ThrowKind::TypeError => "TypeError",
            ThrowKind::HierarchyRequestError => "HierarchyRequestError",
            ThrowKind::NotFoundError => "NotFoundError",
            ThrowKind::SyntaxError => "SyntaxError",
            ThrowKind::RangeError => "RangeError",
        }
    }

    /// Returns the exception of this name, or `None` if there is none.
    #[tactic(auto, unfolding(crate::specs::Kinds::named))]
    pub fn named(word: &[u8]) -> Option<ThrowKind>
        ensures { result ≡ throw_of word.now }
    {
        ThrowKind::ALL
            .iter()
            .copied()
            .find(|kind| kind.text().as_bytes() == word)
    }
}

/// The events that listeners can be registered for.
#[derive(Clone, Copy, Debug, PartialEq, Eq, Hash)]
pub enum EventKind {
    /// The size of a viewport changed (CSSOM View, run the resize steps).
    Resize,
    /// An element or a viewport was scrolled (CSSOM View, run the scroll steps).
    Scroll,
    /// Resize observations were left undelivered (Resize Observer, deliver resize loop error).
    Error,
    /// A media query list started or stopped matching (CSSOM View).
    Change,
}

impl EventKind {
    /// All events.
    pub const ALL: [EventKind; 4] = [
        EventKind::Resize,
        EventKind::Scroll,
        EventKind::Error,
        EventKind::Change,
    ];

    /// Returns the type of the event, as it appears in scripts and traces.
    pub fn text(&self) -> &'static str
        ensures { result.now ≡ event_word self.now }
    {
        match self {
            EventKind::Resize => "resize",
            EventKind::Scroll => "scroll",
            EventKind::Error => "error",
            EventKind::Change => "change",
        }
    }

    /// Returns the event of this type, or `None` if there is none.
    #[tactic(auto, unfolding(crate::specs::Kinds::named))]
    pub fn named(word: &[u8]) -> Option<EventKind>
        ensures { result ≡ event_of word.now }
    {
        EventKind::ALL
            .iter()
            .copied()
            .find(|kind| kind.text().as_bytes() == word)
    }
}
