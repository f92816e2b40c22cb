// What round each call of a race is passed.

/// What a client's thread passes before and after each of its calls. Both return.
pub trait Gate {
    /// Before the client's call of this number, from 1.
    fn before(&self, client: u16, number: u64);

    /// After the client's call of this number was answered.
    fn after(&self, client: u16, number: u64);
}

/// A gate that lets all pass.
#[derive(Clone, Copy, Debug)]
pub struct Pass;

impl Gate for Pass {
    fn before(&self, _client: u16, _number: u64) {}

    fn after(&self, _client: u16, _number: u64) {}
}
