//! What a moment shows of a thread.

/// What holds of a thread at a moment.
#[derive(Clone, Copy)]
pub struct Sight {
    /// It is a task that is ready.
    pub ready: bool,

    /// The processor to which strong scheduling links it.
    pub linked: Option<u8>,

    /// The processor that it runs on.
    pub on: Option<u32>,
}
