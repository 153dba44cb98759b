//! The headers of a request, and the one that each request of the Workload API carries.

ghost use Rattle.spf_link.specs.Interceptor.{IsIntercepted};
ghost use Rattle.spf_client_tests.specs.Interceptors.{set_to_false_in};

use spf_api::{GrpcStatusCode, GrpcStatusError, TransportError, WorkloadApiError};
use spf_io::{OutOfMemory, Text};
use spf_link::{
    Headers, InterceptFunction, Interceptor, InterceptorFault, InterceptorFn, MetadataAdder,
    NoInterceptor,
};
use std::alloc::Global;
use std::mem::drop;

/// Sets the header of the Workload API to `false`.
fn set_to_false(headers: &mut Headers) -> Result<(), InterceptorFault>
    ensures { IsIntercepted (set_to_false_in headers.old) headers.new result }
{
    match headers.set("workload.spiffe.io", "false") {
        Ok(()) => Ok(()),
        Err(_) => Err(InterceptorFault::OutOfMemory),
    }
}

/// What `set_to_false` does.
#[derive(Drop)]
struct SetsFalse;

impl InterceptFunction for SetsFalse {
    ghost function = { set_to_false_in };
}

/// Refuses each request.
#[derive(Drop)]
struct Expired {
    alloc: Global,
}

impl Interceptor for Expired {
    ghost use Rattle.std.specs.Prelude.{Some, None, codes};
    ghost use Rattle.spf_api.specs.declared.status.GrpcStatusCode.TheVariants as status_code;

    ghost intercepts = { λ _ headers.
        record {
          refusal = Some
              (record {
                code = status_code.Internal;
                message = codes "token expired";
                source = None;
              });
          headers = headers;
        } };

    fn call(&self, _headers: &mut Headers) -> Result<(), InterceptorFault> {
        match Text::copy_of(self.alloc, "token expired") {
            Ok(message) => {
                let status = GrpcStatusError::new(GrpcStatusCode::Internal, message);
                Err(InterceptorFault::Status(status))
            }
            Err(_) => Err(InterceptorFault::OutOfMemory),
        }
    }
}

/// Whether the headers are these, in order.
fn has(headers: &Headers, wanted: &[(&str, &str)]) -> bool {
    let entries = headers.entries();
    if entries.len() != wanted.len() {
        return false;
    }
    for (entry, wanted) in entries.iter().zip(wanted) {
        if entry.0.as_str() != wanted.0 || entry.1.as_str() != wanted.1 {
            return false;
        }
    }
    true
}

/// Headers that are set, or removed where there is no value, and what the list is after each.
const STEPS: &[(&str, Option<&str>, &[(&str, &str)])] = &[
    ("a", Some("1"), &[("a", "1")]),
    ("b", Some("2"), &[("a", "1"), ("b", "2")]),
    ("c", Some("3"), &[("a", "1"), ("b", "2"), ("c", "3")]),
    ("a", Some("4"), &[("a", "4"), ("b", "2"), ("c", "3")]),
    ("b", None, &[("a", "4"), ("c", "3")]),
    ("B", None, &[("a", "4"), ("c", "3")]),
];

/// Sets the header, or removes it. Returns whether it then has that value.
fn put(headers: &mut Headers, name: &str, value: Option<&str>) -> Result<bool, OutOfMemory> {
    match value {
        Some(value) => headers.set(name, value)?,
        None => headers.remove(name),
    }
    Ok(headers.get(name) == value)
}

#[test]
fn headers(rt: HostRuntime) {
    let mut headers = Headers::new(rt.alloc());
    for &(name, value, wanted) in STEPS {
        assert!(rt;
            put(&mut headers, name, value).expect(&rt, "memory"),
            "{name}"
        );
        assert!(rt; has(&headers, wanted), "{name}");
    }
    assert!(rt; headers.get("c") == Some("3"));
    drop(headers);
}

/// The header `x`, and the one that each request carries.
const METADATA: &[(&str, &str)] = &[("x", "1"), ("workload.spiffe.io", "true")];

#[test]
fn metadata_header(rt: HostRuntime) {
    let mut headers = Headers::new(rt.alloc());
    headers.set("x", "1").expect(&rt, "memory");
    let interceptor = InterceptorFn::<_, SetsFalse>::new(|headers: &mut Headers| set_to_false(
        headers,
    ));
    assert!(rt; is_added(MetadataAdder::new(interceptor).call(&mut headers)));
    assert!(rt; has(&headers, METADATA));
    assert!(rt; is_added(MetadataAdder::new(NoInterceptor).call(&mut headers)));
    assert!(rt; has(&headers, METADATA));
    drop(headers);
}

fn is_added(answer: Result<(), WorkloadApiError>) -> bool {
    match answer {
        Ok(()) => true,
        Err(e) => {
            drop(e);
            false
        }
    }
}

/// Whether the error is the status of `Expired`.
fn is_expired(e: &WorkloadApiError) -> bool {
    match e {
        WorkloadApiError::Transport(TransportError::Status(status)) => {
            status.code() == GrpcStatusCode::Internal && status.message() == "token expired"
        }
        _ => false,
    }
}

fn is_refused(answer: Result<(), WorkloadApiError>) -> bool {
    match answer {
        Ok(()) => false,
        Err(e) => {
            let is_expired = is_expired(&e);
            drop(e);
            is_expired
        }
    }
}

/// A refusal is the status of the interceptor, and no header is added.
#[test]
fn metadata_refused(rt: HostRuntime) {
    let alloc = rt.alloc();
    let mut headers = Headers::new(alloc);
    assert!(rt; is_refused(MetadataAdder::new(Expired { alloc }).call(&mut headers)));
    assert!(rt; headers.entries().is_empty());
    drop(headers);
}
