/// What a thread is told on its order lane. Each job first waits for `Go` or `Quit`.
#[derive(Clone, Copy, Debug, PartialEq, Eq)]
pub enum Order {
    /// Begin.
    Go,
    /// End at once, with everything untouched.
    Quit,
    /// End when nothing is left to do.
    Stop,
}
