//! What the first words of lines and conditions introduce.

/// A command without a block.
#[derive(Clone, Copy)]
pub enum Verb {
    Viewport,
    Ratio,
    Block,
    Image,
    Frame,
    Append,
    Before,
    Remove,
    Set,
    Grow,
    Load,
    Ro,
    RoObserve,
    RoUnobserve,
    RoDisconnect,
    Io,
    IoObserve,
    IoUnobserve,
    IoDisconnect,
    IoTake,
    Listen,
    Unlisten,
    Media,
    Scroll,
    ScrollBy,
    Raf,
    CancelRaf,
    Timer,
    ClearTimer,
    Post,
    Say,
    Read,
}

/// The kind of a line, given by its first word.
#[derive(Clone, Copy)]
pub enum Head {
    Act(Verb),
    Tick,
    Each,
    When,
    Handler,
    End,
}

/// The kind of a condition, given by its first word.
#[derive(Clone, Copy)]
pub enum Shape {
    Wider,
    Taller,
    Matches,
    Attached,
    Seen,
}
