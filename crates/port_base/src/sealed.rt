// The port of a dead place, or of a retired one.

/// The port of a dead place, or of a retired one: it stays there, and is called no more but for what it keeps. No code
/// outside this crate can reach it.
#[derive(Drop)]
pub struct Sealed<P> {
    pub(crate) port: P,
}
