//! A call on a stack of a size that is asked for.

ghost use Rattle.std.specs.Prelude.{◌⊎◌};

use std::snapshot::Snapshot;
use std::thread::{Builder, Promise, Threads};

/// What can be called once: it may be while it is `ready`, and returns something that it `gives`. It stands for `FnOnce`,
/// which can't be a bound of a promise yet.
pub trait Call<T> {
    ghost ready: { Self → Type 0 };

    ghost gives: { Self → T → Type 0 };

    fn call(self) -> T
        requires { ready self }
        ensures { gives self result };
}

impl<F: FnOnce() -> T, T> Call<T> for F {
    ghost ready = { λ f. F.pre f };

    ghost gives = { λ f result. F.post f result };

    fn call(self) -> T {
        self()
    }
}

/// The promise that a thread's result is one that the call gives.
#[derive(Drop)]
struct GivenBy<C>(Snapshot<C>);

impl<C: Call<T>, T> Promise<T> for GivenBy<C> {
    ghost kept_by = { λ promise result. C.gives promise.0.value result };
}

/// Calls `deep` on a thread with a stack of this many bytes and waits for it. Where no such thread can be had, as in
/// a small address space, it calls `shallow` on the caller's own stack. The system hands out a stack's pages only as
/// they are touched.
pub fn on_large_stack<R, C, D, T>(rt: &R, bytes: usize, deep: C, shallow: D) -> T
where
    R: Threads,
    C: Call<T> + Send + Drop + 'static,
    D: Call<T> + Drop,
    T: Send + Drop + 'static,
    requires deep { C.ready deep }
    requires shallow { D.ready shallow }
    ensures { C.gives deep result ⊎ D.gives shallow result }
{
    let promise = GivenBy(Snapshot::of(&deep));
    let run = move || -> T
        requires { C.ready deep }
        ensures { C.gives deep result }
    { deep.call() };
    match Builder::new()
        .stack_size(bytes)
        .spawn_with(rt, promise, run)
    {
        Ok(child) => child.join(rt),
        Err(_) => shallow.call(),
    }
}
