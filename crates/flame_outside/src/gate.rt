//! A gate that workers pass.

use std::sync::Wait;
use std::thread::Threads;

/// What a worker calls just before it runs a piece. It is shared between threads, changes nothing that a clause sees,
/// and may wait.
pub trait Gate: Sync {
    /// Lets the worker pass that is to run the piece of that number of the function of that number.
    fn enter<Rt: Threads + Wait + Sync>(&self, rt: &Rt, function: u32, piece: u32);
}

/// A gate that is always open.
#[derive(Clone, Copy, Debug)]
pub struct OpenGate;

impl Gate for OpenGate {
    fn enter<Rt: Threads + Wait + Sync>(&self, _rt: &Rt, _function: u32, _piece: u32) {}
}
