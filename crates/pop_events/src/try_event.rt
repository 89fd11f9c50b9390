//! The events of a search for tries.
use crate::event::Event;
use crate::shown::Shown;

/// What a search for tries returns. In order: the events of set play, if it is asked for; the keys and their total; the
/// tries and their total. What is shown below a key or a try follows it.
#[derive(Drop)]
pub enum TryEvent {
    /// The problem is of help play, which has no tries.
    NoTries,
    /// An event of set play.
    Set(Event),
    /// The play begins.
    Keys,
    /// A key.
    Key(Shown),
    /// The keys end: their number, and whether the limit of solutions stopped them.
    KeyTotal { count: u32, stopped: bool },
    /// The tries begin.
    Tries,
    /// A try.
    Try(Shown),
    /// The tries end: their number.
    TryTotal { count: u32 },
    /// Black is in check after the first move.
    Check,
    /// White threatens to win if Black passes. The threats follow.
    Threat,
    /// Black isn't in check, and White threatens nothing.
    Zugzwang,
    /// A threat, a defence, or a move below one. `depth` is the number of moves above it, 1 for a defence and 2 for a
    /// threat; `half` is the number of its half-move, counted from 1.
    Node { depth: u32, half: u32, shown: Shown },
    /// The refutations of a try follow.
    But,
    /// A refutation: a reply after which White no longer wins.
    Refutation(Shown),
    /// The try stalemates, which refutes it.
    Stalemate,
}
