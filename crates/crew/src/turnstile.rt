use std::sync::Wait;

/// What each call passes as it begins and as it ends. It may hold a call for as long as it likes.
pub trait Turnstile: Sync {
    /// The call of this number begins. Its job isn't open yet.
    fn enter<R: Wait>(&self, rt: &R, number: u32);

    /// The call of this number has ended.
    fn leave<R: Wait>(&self, rt: &R, number: u32);
}

/// A turnstile that holds no call.
#[derive(Clone, Copy)]
pub struct OpenTurnstile;

impl Turnstile for OpenTurnstile {
    fn enter<R: Wait>(&self, _rt: &R, _number: u32) {}

    fn leave<R: Wait>(&self, _rt: &R, _number: u32) {}
}
