//! Where the members of a cluster listen.

ghost use Rattle.std.specs.Prelude.{◌<◌, IfErr, IfNone, IfOk, IfSome, OnOk, length};
ghost use Rattle.standby.specs.Members.{Adds, AreMembers, AreRefused, IsBad, IsMember, IsNowhere, IsWhere, NamesHost, NamesNone};

use crate::fault::ListFault;
use std::alloc::Global;
use std::net::{Net, SocketAddr, ToSocketAddrs};

/// The host and port that a URL says, which begins with `http://`, and may end with a slash.
fn host_in<'w>(url: &'w str) -> Option<&'w str>
    ensures named { IfSome result (λ host. NamesHost url.now host.now) }
    ensures none { IfNone result (NamesNone url.now) }
{
    let host = url.strip_prefix("http://")?;
    match host.strip_suffix('/') {
        Some(host) => Some(host),
        None => Some(host),
    }
}

/// Adds where a host listens.
fn push_host<R: Net>(rt: &R, host: &str, found: &mut Vec<SocketAddr>) -> Result<(), ListFault>
    ensures pushed { OnOk result (Adds (IsWhere host.now) found.old.items found.new.items) }
    ensures refused { IfErr result (IsNowhere host.now) }
{
    let Ok(addresses) = host.to_socket_addrs(rt) else {
        return Err(ListFault::Unresolved);
    };
    for address in addresses {
        let Ok(()) = found.push(address) else {
            return Err(ListFault::Memory);
        };
    }
    Ok(())
}

/// Adds where the member at a URL listens.
fn push_member<R: Net>(rt: &R, url: &str, found: &mut Vec<SocketAddr>) -> Result<(), ListFault>
    ensures pushed { OnOk result (Adds (IsMember url.now) found.old.items found.new.items) }
    ensures refused { IfErr result (IsBad url.now) }
{
    match host_in(url) {
        Some(host) => push_host(rt, host, found),
        None => Err(ListFault::NoMember),
    }
}

/// Where members listen that are named by URLs, with commas between them: somewhere, at least.
pub fn addresses_of<R: Net>(
    rt: &R,
    alloc: Global,
    members: &str,
) -> Result<Vec<SocketAddr>, ListFault>
    ensures found { IfOk result (λ found. AreMembers members.now found.items) }
    ensures some { IfOk result (λ found. 0 < length found.items) }
    ensures refused { IfErr result (AreRefused members.now) }
{
    let mut found = Vec::new(alloc);
    let mut rest = members;
    while let Some((url, more)) = rest.split_once(',') {
        push_member(rt, url, &mut found)?;
        rest = more;
    }
    push_member(rt, rest, &mut found)?;
    if found.is_empty() {
        return Err(ListFault::NoMember);
    }
    Ok(found)
}
