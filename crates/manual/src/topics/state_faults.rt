//! Faults of a state file, and of the moment that it has.

use crate::topic::Topic;

/// What the faults of a state file mean that are told with its path.
pub const STATE_FAULTS: [Topic; 25] = [
    Topic {
        name: "Missing",
        text: "\
State Missing: FILE: there is no file at the path of --state; none was made. Look at the path, and whether its disk is mounted: a server on a new file knows nothing of the codes, tokens and hooks of the old one. At the first start of all, make the file:

  oauthd state --new /var/lib/oauthd/state

State Missing: NAME: no list in etcd has keys that begin with the NAME of --prefix. Look at --etcd and --prefix; state --new --etcd .. makes one.
",
    },
    Topic {
        name: "NotState",
        text: "\
State NotState: FILE: the file is another program's, or was emptied. It was left as it is. Look at the path. Where it was the state, put the last copy of it back. For a server that begins anew, move the file away and make a new one:

  mv state not-a-state
  oauthd state --new state
",
    },
    Topic {
        name: "Version",
        text: "\
State Version N: FILE: the file is of another version than this oauthd's, which is 3. It was left as it is. A lower number is of an older oauthd, a higher one of a newer: start that one. This one cannot read it; to begin anew, move the file away and make an empty one.

  mv state older-state
  oauthd state --new state
",
    },
    Topic {
        name: "Damaged",
        text: "\
State Damaged N: FILE: the first N batches of the file are right, and what stands behind them is not what a server wrote, nor what a crash leaves: a disk fails, or something else wrote to the file. Nothing was written. Keep the file, and look at the disk. Then put the last copy of the state in its place; what happened after that copy is lost. state --front lists what the first N batches stand for.

  oauthd state --front damaged-state
  cp -p /backup/state /var/lib/oauthd/state
",
    },
    Topic {
        name: "Device",
        text: "\
State Device: WHY: FILE: the disk refused to read or to write, for the system's reason WHY: no storage space, quota exceeded, read-only filesystem, and others. All that was acknowledged is in the file. Make room, or look what is wrong with the disk, and start again.

  df /var/lib/oauthd
",
    },
    Topic {
        name: "InUse",
        text: "\
State InUse: FILE: another server holds the lock on FILE.lock. Stop that one first.
",
    },
    Topic {
        name: "Open",
        text: "\
State Open: WHY: FILE: the system refused to open the file, its lock or its folder, for its reason WHY: permission denied, not a directory, is a directory, read-only filesystem, no storage space, quota exceeded, and others. Look at the path, and who may read and write there.

  ls -ld /var/lib/oauthd /var/lib/oauthd/state
",
    },
    Topic {
        name: "Link",
        text: "\
State Link: FILE: the path is a symbolic link. Name the file that it leads to: by two names two servers could have one file, and each would undo what the other one keeps.

  oauthd start 127.0.0.1:8080 registry.json --state $(readlink -f state)
",
    },
    Topic {
        name: "NotAFile",
        text: "\
State NotAFile: FILE: the path is that of a folder, a pipe, a socket or a device. A state is kept in a regular file:

  oauthd state --new /var/lib/oauthd/state
",
    },
    Topic {
        name: "SecondLink",
        text: "\
State SecondLink: FILE: the file has a second name (a hard link). The server puts new files in its place, which the other name would not see, and two servers could have it. Remove the other name; find tells it:

  find /var/lib/oauthd -samefile /var/lib/oauthd/state
",
    },
    Topic {
        name: "WritableByOthers",
        text: "\
State WritableByOthers: FILE: not only its owner may write the file, and who writes there makes tokens. Look who did. Then take the right away:

  chmod 600 /var/lib/oauthd/state
",
    },
    Topic {
        name: "ClockAhead",
        text: "\
State ClockAhead N: FILE: the machine's clock is N seconds ahead of the last moment in the file, which is more than a year. Nothing was written: codes and tokens would end at once, and the moment would stay, since a server's time never goes back. Set the clock. Where it is right, and the server did not run for so long, start it once with --accept-clock:

  date
  oauthd start 127.0.0.1:8080 registry.json --state /var/lib/oauthd/state --accept-clock
",
    },
    Topic {
        name: "Exists",
        text: "\
State Exists: FILE: state --new or --to was to make the file, and something is there already. It was left as it is. Name another path, or move away what is there. State Exists: NAME: so it is of a list in etcd, and of its prefix.

  oauthd state --new /var/lib/oauthd/new-state
",
    },
    Topic {
        name: "Make",
        text: "\
State Make: WHY: FILE: state --new was to make the file, and the system refuses it, for its reason WHY: not found (a folder of the path), permission denied, not a directory, read-only filesystem, no storage space, quota exceeded, and others. Nothing is left there.

  ls -ld /var/lib/oauthd
",
    },
    Topic {
        name: "Overtaken",
        text: "\
State Overtaken: another server leads, or may: this one was not heard of for longer than its lease, or its cluster was not. What it has acknowledged is in the list. Started again it waits. Where that comes often look why it stalls, or give it a longer --lease.

  journalctl -u etcd
",
    },
    Topic {
        name: "Unclear",
        text: "\
State Unclear: the members of etcd told nothing for half a minute: whether the last change was done is not known, and who asked for it got no reply. Started again the server waits until it leads, and finds it or not. State Unclear: NAME: no list was found in that time.

  etcdctl endpoint status --cluster
",
    },
    Topic {
        name: "OtherCluster",
        text: "\
State OtherCluster: NAME: the list was begun in another cluster than the one that answers: --etcd names other members, or a snapshot was restored under another token. Restored with the old names, URLs and token it is taken; what came behind it is lost.
",
    },
    Topic {
        name: "Denied",
        text: "\
State Denied N: NAME: etcd refuses what is asked, with this code: 3 a wrong name or password, 7 what the user may not do, 9 a user where there are none. Look at --etcd-user and at the user's rights on the prefix.

  etcdctl user get oauthd
",
    },
    Topic {
        name: "Led",
        text: "\
State Led: NAME: a server leads on this list, so that none is made there. Stop it, and wait until its lease ends.
",
    },
    Topic {
        name: "Unread",
        text: "\
State Unread: NAME: a piece of the list is missing, or etcd was compacted while it was read, four times.
",
    },
    Topic {
        name: "Unplaced",
        text: "\
State Unplaced: NAME: the list could not be made. Where it is there by now, it is whole.
",
    },
    Topic {
        name: "NoMember",
        text: "\
State NoMember: NAME: --etcd names no member: URLs that begin with http://, with commas between them. TLS is spoken by a proxy beside the server (docs/MACHINES.md).
",
    },
    Topic {
        name: "Unresolved",
        text: "\
State Unresolved: NAME: a host's name in --etcd is not known.
",
    },
    Topic {
        name: "NoPassword",
        text: "\
State NoPassword: NAME: the file of --etcd-password-file can't be read, or is no text.
",
    },
    Topic {
        name: "NoSocket",
        text: "\
State NoSocket: NAME: there is no socket at ADDR where those who come are to be answered while the server waits.
",
    },
];
