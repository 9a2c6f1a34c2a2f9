//! Whether a registry's rules are as wide as those that a file tells.

ghost use Rattle.std.specs.Prelude.{OnOk, IfErr};
ghost use Rattle.rules_codec.specs.Facts.{rules_fact};
ghost use Rattle.state_file.specs.Comparing.{AreAsWide, AreNarrower};

use crate::fault::StateFault;
use clients::Bounds;
use rules_beside::{OwnersBeside, moved_client, moved_scope, narrowed_client};
use std::alloc::Global;

/// Tests whether rules are as wide as those told: the scopes in their order, who the owners are, the clients in their order, that
/// no owner is a former one, what each client may be allowed, and the lives of tokens.
pub fn compare(alloc: Global, told: &Bounds<'_>, now: &Bounds<'_>) -> Result<(), StateFault>
    ensures wide { OnOk result (AreAsWide (rules_fact told.now) (rules_fact now.now)) }
    ensures refused { IfErr result (AreNarrower (rules_fact told.now) (rules_fact now.now)) }
{
    if let Some(name) = moved_scope(&told.scopes, &now.scopes) {
        return Err(StateFault::ScopeMoved(String::from_str(alloc, name)?));
    }
    let owners = OwnersBeside::new(alloc, told, now)?;
    if let Some(number) = owners.first_moved() {
        return Err(StateFault::OwnerMoved(number));
    }
    if let Some(name) = moved_client(&told.clients, &now.clients) {
        return Err(StateFault::ClientMoved(String::from_str(alloc, name)?));
    }
    if owners.has_former() {
        return Err(StateFault::FormerOwner);
    }
    if let Some(name) = narrowed_client(&told.clients, &now.clients) {
        return Err(StateFault::ClientNarrowed(String::from_str(alloc, name)?));
    }
    if now.access_life < told.access_life || now.refresh_life < told.refresh_life {
        return Err(StateFault::LifeNarrowed);
    }
    Ok(())
}
