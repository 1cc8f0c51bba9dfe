// Who is in at a place: its generation there, and whether it joined to listen only.
#[derive(Clone, Copy, Debug)]
pub(crate) struct Stay {
    pub(crate) generation: u64,
    pub(crate) listens: bool,
}
