//! What is done to the headers of a request before it is sent.

ghost use Rattle.std.specs.Prelude.{List};
ghost use Rattle.spf_link.specs.Headers.{Header};
ghost use Rattle.spf_link.specs.Interceptor.{Intercepted, InterceptsBy, IsIntercepted};

use crate::headers::Headers;
use spf_api::GrpcStatusError;
use std::fmt;
use std::marker::PhantomData;

/// Why an interceptor refuses a request.
#[derive(Debug, PartialEq, Eq, Drop)]
pub enum InterceptorFault {
    /// The call ends with this status.
    Status(GrpcStatusError),
    OutOfMemory,
}

/// Changes the headers of a request, or refuses it, by a function of itself and of the headers.
pub trait Interceptor {
    // What becomes of headers.
    ghost intercepts: { Self → List Header → Intercepted };
    // The interceptor may be called, and does what its function says.
    ghost can_intercept: { Self → Type 0 } = { λ _. Unit {0} };

    fn call(&self, headers: &mut Headers) -> Result<(), InterceptorFault>
        requires { can_intercept self.now }
        ensures { IsIntercepted (intercepts self.now headers.old) headers.new result };
}

/// Leaves the headers as they are.
#[derive(Clone, Copy, Debug)]
pub struct NoInterceptor;

impl Interceptor for NoInterceptor {
    ghost use Rattle.std.specs.Prelude.{None};

    ghost intercepts = { λ _ headers. record { refusal = None; headers = headers } };

    fn call(&self, _headers: &mut Headers) -> Result<(), InterceptorFault> {
        Ok(())
    }
}

/// A function from headers to what becomes of them, which only contracts see.
pub trait InterceptFunction {
    ghost function: { List Header → Intercepted };
}

/// A stored closure that does what the function of `N` says. It is called once for each request.
#[derive(Drop)]
pub struct InterceptorFn<
    F: Fn(&mut Headers) -> Result<(), InterceptorFault>,
    N: InterceptFunction,
> {
    f: F,
    function: PhantomData<N>,
}

impl<F: Fn(&mut Headers) -> Result<(), InterceptorFault>, N: InterceptFunction> InterceptorFn<
    F,
    N,
> {
    pub fn new(f: F) -> InterceptorFn<F, N>
        requires callable { F.IsAlwaysCallable f }
        requires intercepts { InterceptsBy F.Fn f N.function }
        ensures { ⟦<InterceptorFn<F, N> as Interceptor>⟧.can_intercept result }
    {
        InterceptorFn {
            f,
            function: PhantomData,
        }
    }
}

impl<F: Fn(&mut Headers) -> Result<(), InterceptorFault>, N: InterceptFunction> fmt::Debug
    for InterceptorFn<F, N> {
    fn fmt<W: fmt::Write>(&self, f: &mut fmt::Formatter<W>) -> fmt::Result {
        write!(f, "InterceptorFn")
    }
}

impl<F: Fn(&mut Headers) -> Result<(), InterceptorFault>, N: InterceptFunction> Interceptor
    for InterceptorFn<F, N> {
    ghost use Rattle.spf_link.specs.Interceptor.{InterceptsBy};

    ghost intercepts = { λ _ headers. N.function headers };

    ghost can_intercept = { λ i. F.IsAlwaysCallable i.f × InterceptsBy F.Fn i.f N.function };

    fn call(&self, headers: &mut Headers) -> Result<(), InterceptorFault> {
        (self.f)(headers)
    }
}
