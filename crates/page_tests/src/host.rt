//! What sessions run on.

use std::random::RandomSource;
use std::thread::Threads;

/// A system that has memory, random bytes and threads.
pub trait Host: AllocGlobal + RandomSource + Threads + Sync {}

impl<R: AllocGlobal + RandomSource + Threads + Sync> Host for R {}
