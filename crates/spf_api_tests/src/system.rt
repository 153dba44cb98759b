//! The clock, pauses, the environment, and the flag that ends waits.

use crate::shown::copy_of;
use spf_api::{EndpointError, WorkloadApiError};
use spf_link::{Endpoint, Headers, from_env};
use spf_system::{
    Clock, EnvValue, Environment, MemClock, MemEnvironment, MemPause, Pause, StdClock,
    StdEnvironment, StdPause, StopFlag,
};
use std::alloc::Global;
use std::mem::drop;
use std::process::Abort;
use std::time::{Duration, Instant};

/// What a clock of the moments 5, none, -1 and 9 gives.
const MOMENTS: &[Option<i64>] = &[Some(5), None, None, Some(9), None, None];

/// Whether the clock gives those moments.
fn gives_moments(clock: &mut MemClock) -> bool {
    for &moment in MOMENTS {
        if clock.now() != moment {
            return false;
        }
    }
    true
}

#[test]
fn clock(rt: HostRuntime) {
    let moments = vec![in rt.alloc(); Some(5), None, Some(-1), Some(9)];
    let mut clock = MemClock::new(moments.expect(&rt, "memory"));
    let given = gives_moments(&mut clock);
    drop(clock);
    assert!(rt; given);
    // 2020-01-01T00:00:00Z
    assert!(rt; StdClock::new(&rt).now() > Some(1_577_836_800));
}

/// Whether these are the delays of one and two milliseconds.
fn are_two(delays: &[Duration]) -> bool {
    let wanted = [Duration::from_millis(1), Duration::from_millis(2)];
    delays.len() == 2
        && delays[0].as_millis() == 1
        && delays[1].as_millis() == 2
        && delays == wanted.as_slice()
}

/// Whether a pause with room for two keeps the first two of three delays.
fn keeps_two(rt: &impl Abort, alloc: Global) -> bool {
    let mut pause = MemPause::new(alloc, 2).expect(rt, "a pause");
    for millis in [1, 2, 3] {
        pause.pause(Duration::from_millis(millis));
    }
    let kept = are_two(pause.delays());
    drop(pause);
    kept
}

#[test]
fn pause_keeps_the_first(rt: HostRuntime) {
    assert!(rt; keeps_two(&rt, rt.alloc()));
}

/// How long a pause takes.
fn taken<P: Pause>(rt: HostRuntime, pause: &mut P, delay: Duration) -> Option<Duration> {
    let started = Instant::now(&rt).ok()?;
    pause.pause(delay);
    started.elapsed(&rt).ok()
}

#[test]
fn pause_ends_by_its_mark(rt: HostRuntime) {
    let stop = StopFlag::new(rt.alloc()).expect(&rt, "a flag");
    let mut pause = StdPause::new(&rt);
    pause.heed(stop.try_clone().expect(&rt, "a flag"));
    let whole = taken(rt, &mut pause, Duration::from_millis(20));
    stop.set();
    let ended = taken(rt, &mut pause, Duration::from_secs(30));
    drop(pause);
    drop(stop);
    assert!(rt; whole.expect(&rt, "a time") >= Duration::from_millis(20));
    assert!(rt; ended.expect(&rt, "a time") < Duration::from_secs(5));
}

/// Whether a limit that is set on the flag is that of the other.
fn passes_on(stop: &StopFlag, same: &StopFlag, limit: Option<Duration>) -> bool {
    stop.limit(limit);
    same.wait_limit() == limit
}

#[test]
fn stop_flag(rt: HostRuntime) {
    let stop = StopFlag::new(rt.alloc()).expect(&rt, "a flag");
    let same = stop.try_clone().expect(&rt, "a flag");
    let unset = !stop.is_set() && same.wait_limit().is_none();
    let limited = passes_on(&stop, &same, Some(Duration::from_millis(7)));
    let unlimited = passes_on(&stop, &same, None);
    stop.set();
    let set = same.is_set();
    drop(same);
    drop(stop);
    assert!(rt; unset);
    assert!(rt; limited && unlimited);
    assert!(rt; set);
}

/// The value of a variable that is there.
fn found(rt: &impl Abort, alloc: Global, text: &str) -> EnvValue {
    EnvValue::Found(copy_of(rt, alloc, text))
}

/// Whether the variable has this value.
fn has<E: Environment>(
    rt: &impl Abort,
    alloc: Global,
    environment: &E,
    name: &str,
    wanted: &EnvValue,
) -> bool {
    let value = environment.var(alloc, name).expect(rt, "memory");
    let is_wanted = value == *wanted;
    drop(value);
    is_wanted
}

/// Whether an environment in memory gives a copy of its value for the variable.
fn gives(rt: &impl Abort, alloc: Global, name: &str) -> bool {
    let value = found(rt, alloc, "unix:///foo");
    let memory = MemEnvironment::new(value.try_clone(alloc).expect(rt, "memory"));
    let has_value = has(rt, alloc, &memory, name, &value);
    drop(memory);
    drop(value);
    has_value
}

#[test]
fn environment(rt: HostRuntime) {
    assert!(rt; gives(&rt, rt.alloc(), "ANY"));
    let own = StdEnvironment::new(&rt);
    assert!(rt;
        has(
            &rt,
            rt.alloc(),
            &own,
            "SPF_TESTS_HAS_NO_SUCH_VARIABLE",
            &EnvValue::Missing
        )
    );
}

/// Whether a header that is set has its value.
fn header_is_set(rt: &impl Abort, alloc: Global) -> bool {
    let mut headers = Headers::new(alloc);
    headers.set("name", "value").expect(rt, "memory");
    let is_set = headers.get("name") == Some("value");
    drop(headers);
    is_set
}

#[test]
fn pause_header_env(rt: HostRuntime) {
    assert!(rt; keeps_two(&rt, rt.alloc()));
    assert!(rt; header_is_set(&rt, rt.alloc()));
    assert!(rt; gives(&rt, rt.alloc(), "SPIFFE_ENDPOINT_SOCKET"));
}

/// A word for the error, or the path of the endpoint.
fn word_of(endpoint: &Result<Endpoint, WorkloadApiError>) -> &str {
    match endpoint {
        Ok(Endpoint::Unix(path)) => path.as_str(),
        Err(WorkloadApiError::MissingEndpointSocket) => "missing",
        Err(WorkloadApiError::NotUnicodeEndpointSocket) => "not Unicode",
        Err(WorkloadApiError::Endpoint(EndpointError::Parse(_))) => "no URI",
        _ => "another",
    }
}

/// Whether the environment names that endpoint where its variable has this value.
fn is_named(alloc: Global, value: EnvValue, wanted: &str) -> bool {
    let environment = MemEnvironment::new(value);
    let endpoint = from_env(alloc, &environment);
    drop(environment);
    let is_wanted = word_of(&endpoint) == wanted;
    drop(endpoint);
    is_wanted
}

/// Values of the variable, and what they name.
const VALUES: &[(&str, &str)] = &[("foo", "no URI"), ("unix:///foo", "/foo")];

#[test]
fn endpoint_from_env(rt: HostRuntime) {
    assert!(rt; is_named(rt.alloc(), EnvValue::Missing, "missing"));
    assert!(rt; is_named(rt.alloc(), EnvValue::NotUnicode, "not Unicode"));
    for &(text, wanted) in VALUES {
        assert!(rt;
            is_named(rt.alloc(), found(&rt, rt.alloc(), text), wanted),
            "{text}"
        );
    }
}
