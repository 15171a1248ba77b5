/// The number of a request: that of its link on the desk, and its own on the link, each from 0.
#[derive(Clone, Copy)]
pub struct RequestNumber {
    pub connection: u64,
    pub request: u64,
}
