/// Is told of what the workers do, so that a test can hold them up. No contract says what it makes of it.
pub trait Gate {
    /// A worker has claimed this branch.
    fn claimed(&self, branch: u32);

    /// A worker has filed this branch, or has given it up.
    fn filed(&self, branch: u32);
}

/// A gate that does nothing.
#[derive(Clone, Copy, Debug)]
pub struct OpenGate;

impl Gate for OpenGate {
    fn claimed(&self, _branch: u32) {}

    fn filed(&self, _branch: u32) {}
}
