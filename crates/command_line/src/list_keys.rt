//! What a list in etcd is asked by: where its members listen, and the password of who asks.

ghost use Rattle.std.specs.Prelude.{◌≡◌, IfErr, IfOk};
ghost use Rattle.commands.specs.NamedFiles.{bytes_in};
ghost use Rattle.command_line.specs.ListFaults.{IsOfList};
ghost use Rattle.command_line.specs.ListKeys.{AreTermsOf, HoldsNoPassword, HoldsPassword, LacksPassword, password_in};
ghost use Rattle.standby.specs.Members.{AreMembers, AreRefused};
ghost use Rattle.standby.specs.declared.fault.ListFault.TheVariants.{NoPassword};

use commands::{CommandFault, NamedFile};
use standby::{ListFault, ListTerms, addresses_of};
use start_words::ListWords;
use std::alloc::Global;
use std::net::{Net, SocketAddr};
use std::str;

/// Where the members of a list listen, and the password of who asks, where there is a user.
#[derive(Drop)]
pub(crate) struct ListKeys {
    members: Vec<SocketAddr>,
    password: Option<Vec<u8>>,
}

/// What a fault of a list is to a command on the list of a prefix.
pub(crate) fn of_list<'w>(prefix: &'w str, fault: ListFault) -> CommandFault<'w>
    ensures { IsOfList prefix.now fault result }
{
    match fault {
        ListFault::Memory => CommandFault::OutOfMemory,
        fault => CommandFault::List(prefix, fault),
    }
}

impl ListKeys {
    /// Those of a list that words name; `password` is what stands in the file of the password.
    pub(crate) fn of<R: Net>(
        rt: &R,
        alloc: Global,
        list: ListWords<'_>,
        password: Option<NamedFile>,
    ) -> Result<ListKeys, ListFault>
        ensures members { IfOk result (λ keys. AreMembers list.entry.members.now keys.members.items) }
        ensures password { IfOk result (λ keys. password_in keys ≡ bytes_in password) }
        ensures refused { IfErr result (AreRefused list.entry.members.now) }
    {
        Ok(ListKeys {
            members: addresses_of(rt, alloc, list.members)?,
            password: password.map(|file| file.bytes),
        })
    }

    /// The password, without white space at its end.
    fn password(&self) -> Result<&str, ListFault>
        ensures held { IfOk result (λ password. HoldsPassword (password_in self.now) password.now) }
        ensures none { IfErr result (λ fault. (fault ≡ NoPassword) × HoldsNoPassword (password_in self.now)) }
    {
        let Some(bytes) = &self.password else {
            return Err(ListFault::NoPassword);
        };
        match str::from_utf8(bytes) {
            Ok(text) => Ok(text.trim_end()),
            Err(_) => Err(ListFault::NoPassword),
        }
    }

    /// How the list is asked, by who leads for so many seconds.
    pub(crate) fn terms<'k>(
        &'k self,
        list: ListWords<'k>,
        seconds: u64,
    ) -> Result<ListTerms<'k>, ListFault>
        ensures asked { IfOk result (AreTermsOf list.entry (password_in self.now) seconds) }
        ensures members { IfOk result (λ terms. terms.members.now ≡ self.now.members.items) }
        ensures refused { IfErr result (λ fault. (fault ≡ NoPassword) × LacksPassword list.entry (password_in self.now)) }
    {
        let user = match list.user {
            Some(user) => Some((user.name, self.password()?)),
            None => None,
        };
        Ok(ListTerms {
            members: &self.members,
            user,
            prefix: list.prefix,
            seconds,
        })
    }
}
