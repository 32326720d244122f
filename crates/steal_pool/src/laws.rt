//! Laws of pools, said by a function that does nothing.

ghost use Rattle.steal_pool.specs.Laws.{PoolLaws};

/// While a deque keeps its rule: what an end got was pushed by the owner, and the job that was pushed at a place is got
/// by one end at most, and once.
pub fn pool_laws()
    ensures { PoolLaws }
{}
