// The maintenance signals of an ODU.

/// A maintenance signal of an ODU.
#[derive(Clone, Copy, Debug, PartialEq, Eq)]
pub enum Signal {
    /// Alarm indication: something upstream failed (G.709 clause 16.5.1).
    Ais,
    /// Open connection: nothing is connected upstream (G.709 clause 16.5.2).
    Oci,
    /// Locked: upstream the connection is locked (G.709 clause 16.5.3).
    Lck,
}
