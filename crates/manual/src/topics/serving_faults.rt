//! Faults of a start on a registry, hooks and a state file that don't go together, and of a server that stops.

use crate::topic::Topic;

/// What the faults mean that are told with another one's name, or behind it.
pub const SERVING_FAULTS: [Topic; 27] = [
    Topic {
        name: "NoRules",
        text: "\
State NoRules: FILE: the first batch of the file tells no registry, so no server wrote the file, or one of an earlier commit of oauthd. It was left as it is. Put the last copy of the state in its place; oauthd state FILE says in which batch it is wrong.
",
    },
    Topic {
        name: "Spelling",
        text: "\
State Spelling FAULT: FILE: a batch of the file is whole and spells nothing that this oauthd knows. Spelling Version is the file of another version: start that one. Of any other FAULT, no server wrote it: put the last copy of the state in its place. The file was left as it is; oauthd state FILE tells the batch.
",
    },
    Topic {
        name: "Follows",
        text: "\
State Follows FAULT: FILE: a change of the file can't have happened behind those before it: MomentBack, Unknown, DrawTaken, NotRight, Hook. Each frame is whole, so no disk did this: something else wrote the file, or a server of an earlier commit. It was left as it is. Put the last copy of the state in its place; oauthd state FILE tells the batch.
",
    },
    Topic {
        name: "MomentBack",
        text: "\
Follows MomentBack: a change of the file is of an earlier moment than one before it. A server never goes back. oauthd help Follows has what to do.
",
    },
    Topic {
        name: "Unknown",
        text: "\
Follows Unknown: a change of the file is of a grant that is not there, has ended, or is another one's. oauthd help Follows has what to do.
",
    },
    Topic {
        name: "DrawTaken",
        text: "\
Follows DrawTaken: a code or a token of the file has the digest of one before it. oauthd help Follows has what to do.
",
    },
    Topic {
        name: "NotRight",
        text: "\
Follows NotRight: a change of the file goes beyond the file's own rules, its owner's consent or its code. oauthd help Follows has what to do.
",
    },
    Topic {
        name: "ScopeMoved",
        text: "\
State ScopeMoved NAME: FILE: the scope NAME has another place in the registry's scopes than it had, or none. Scopes are kept by their places, so each stays where it is, and new ones come behind. Nothing was written.

  \"scopes\": [\"new\", \"read\"]   \"scopes\": [\"read\", \"new\"]
",
    },
    Topic {
        name: "ClientMoved",
        text: "\
State ClientMoved NAME: FILE: the client NAME has another place in the registry's clients than it had, or none. Clients are kept by their places, so each stays where it is, and new ones come behind. One who is to have nothing more keeps its place, with another secret. Nothing was written.
",
    },
    Topic {
        name: "OwnerMoved",
        text: "\
State OwnerMoved N: FILE: who was owner N stands at another place of the registry's owners, or nowhere, or another one has the number now. Without numbers an owner is his place: he keeps it, with the same sub, and new ones come behind. Give each owner a number, the places that they have, before one is left out; what he granted then ends at the next start. Nothing was written.

  [{\"key\": \"ann-key\"}]        [{\"key\": \"ann-key\", \"number\": 1}]
",
    },
    Topic {
        name: "HookDiffers",
        text: "\
State HookDiffers NAME: FILE: the file has a hook NAME of another code or version than the one behind --hook NAME=HEX. Remove the file's by a request, leave out the option, or give the other one another name. Nothing was written.

  oauthd state /var/lib/oauthd/state | grep '\"NAME\"'
",
    },
    Topic {
        name: "Hook",
        text: "\
State Hook NAME FAULT: FILE: the hook NAME, behind start or in the file, is refused: by its name (BadName, NameTaken), because there are more than 8 (Full), or by a fault of check (Insn, Verify). Follows Hook is one that the file's changes bring. Nothing was written.

  oauthd check --why hook.hex
",
    },
    Topic {
        name: "Config",
        text: "\
Config FAULT SPOT: FILE: the registry is refused. FAULT is NotJson, BadShape, OutOfRange, BadScope, BadRedirect or Twice, and SPOT the member where it is. oauthd registry says the same.

  oauthd registry registry.json
",
    },
    Topic {
        name: "Full",
        text: "\
Full: there are more than 8 hooks, or a state file would have more than it may. Remove a hook that is not needed.
",
    },
    Topic {
        name: "BadName",
        text: "\
BadName: the name of a hook is not 1 to 32 of a-z, 0-9 and -.

  --hook Listed=hook.hex   --hook listed=hook.hex
",
    },
    Topic {
        name: "NameTaken",
        text: "\
NameTaken: another hook has the name. Remove that one first, or take another name.
",
    },
    Topic {
        name: "Insn",
        text: "\
Insn FAULT: the code of a hook is no program: FAULT is one of its bytes, with its slot. oauthd help has each.

  oauthd check --why hook.hex
",
    },
    Topic {
        name: "Verify",
        text: "\
Verify FAULT: the code of a hook is a program that might do what a hook may not: FAULT has the slot. oauthd help has each.

  oauthd check --why hook.hex
",
    },
    Topic {
        name: "Wait",
        text: "\
stopped: Wait: the system refused to wait for connections. What was acknowledged is in the file. Start the server again.
",
    },
    Topic {
        name: "Clock",
        text: "\
stopped: Clock: a clock of the machine can't be read. What was acknowledged is in the file. Start the server again.
",
    },
    Topic {
        name: "Rounds",
        text: "\
stopped: Rounds: more rounds than can be counted. Start the server again.
",
    },
    Topic {
        name: "NoRoom",
        text: "\
stopped: State: NoRoom: WHY: the disk has no room, and what the file had in reserve is used up. Who asked last got no reply; what was acknowledged is in the file. Make room, and start the server again.

  df /var/lib/oauthd
",
    },
    Topic {
        name: "Displaced",
        text: "\
stopped: State: Displaced: the state file or its lock was moved or removed while the server ran, and nothing more is written. Put the file back in its place, or the newest copy, and start the server again.

  ls -l /var/lib/oauthd
",
    },
    Topic {
        name: "Accept",
        text: "\
connection ended: Accept: a connection could not be taken, mostly for want of descriptors. It is tried again.

  ulimit -n
",
    },
    Topic {
        name: "Read",
        text: "\
connection ended: Read: a socket can't be read any more: mostly the client is gone. The server goes on with the others.
",
    },
    Topic {
        name: "Write",
        text: "\
connection ended: Write: a socket can't be written any more: mostly the client is gone. The server goes on with the others.
",
    },
    Topic {
        name: "Refused",
        text: "\
connection ended: Refused FAULT: an event of a connection was not taken: oauthd help FAULT. The server goes on with the others.
",
    },
];
