// Copies of what stays in a unit's document.
ghost use Rattle.std.specs.Prelude.{◌≡◌, IfOk};

use fh_base::{Bytes, List, NoMemory};
use fh_document::Injection;
use std::alloc::Global;
use window_config::{Config, EndpointList};

/// A list with the same items.
pub(crate) fn copy_list<T: Copy + Drop>(alloc: Global, items: &List<T>) -> Result<List<T>, NoMemory>
    ensures { IfOk result (λ copy. copy ≡ items.now) }
{
    let mut copy = List::new(alloc);
    for k in 0..items.len() {
        if let Some(item) = items.get(k) {
            copy.push(*item)?;
        }
    }
    Ok(copy)
}

/// A list with the same endpoints.
fn copy_endpoints(endpoints: &EndpointList) -> EndpointList
    ensures { result ≡ endpoints.now }
{
    let items = endpoints.as_slice();
    let mut copy = EndpointList::new();
    for k in 0..items.len() {
        let _ = copy.push(items[k]);
    }
    copy
}

/// The same configuration.
pub(crate) fn copy_config(config: &Config) -> Config
    ensures { result ≡ config.now }
{
    Config {
        widths: config.widths,
        delays: config.delays,
        gap: config.gap,
        fragment: config.fragment,
        pack: config.pack,
        endpoints: copy_endpoints(&config.endpoints),
    }
}

/// The same frame at the same time.
fn copy_injection(alloc: Global, injection: &Injection) -> Result<Injection, NoMemory>
    ensures { IfOk result (λ copy. copy ≡ injection.now) }
{
    let bytes = injection.frame.as_slice();
    let mut frame = Bytes::with_capacity(alloc, bytes.len())?;
    frame.push_all(bytes)?;
    Ok(Injection {
        side: injection.side,
        at: injection.at,
        frame,
    })
}

/// The same frames at the same times.
pub(crate) fn copy_injections(
    alloc: Global,
    injections: &List<Injection>,
) -> Result<List<Injection>, NoMemory>
    ensures { IfOk result (λ copy. copy ≡ injections.now) }
{
    let mut copy = List::new(alloc);
    for k in 0..injections.len() {
        if let Some(injection) = injections.get(k) {
            copy.push(copy_injection(alloc, injection)?)?;
        }
    }
    Ok(copy)
}
