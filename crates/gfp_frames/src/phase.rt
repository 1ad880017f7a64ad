// What a reader waits for.

/// Where a reader is in delineation (G.7041 clause 6.3.1).
#[derive(Clone, Copy)]
pub enum Phase {
    /// Any header.
    Hunt,
    /// The rest of the frame that was found in HUNT.
    PresyncArea,
    /// The header after that frame.
    Presync,
    /// The rest of a frame that began in sync.
    SyncArea,
    /// The header after such a frame.
    Sync,
}
